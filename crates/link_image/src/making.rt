//! The image of the output.
ghost use Rattle.std.specs.Prelude.{◌≡◌, [], ◌∷◌, length, map, filter_map, All, Contains, IfOk};
ghost use Rattle.link_program.specs.link_rules.ModeOf.{mode_of};
ghost use Rattle.link_program.specs.link_rules.Marks.{by_mode};
ghost use Rattle.link_program.specs.link_rules.Values as values;
ghost use Rattle.link_program.specs.link_rules.Output as output;
ghost use Rattle.link_program.specs.Told.{told_winner};
ghost use Rattle.link_program.specs.Program.{IsProgram, ChunksDiffer};
ghost use Rattle.link_program.specs.Live.{Stage, AreLive};
ghost use Rattle.link_marks.specs.About.{Exporting};
ghost use Rattle.link_layout.specs.Layout.{looked, IsLayout};
ghost use Rattle.link_image.specs.Joined.{joined_image};
ghost use Rattle.link_image.specs.Sections.{types_seen, takers_of, table_seen, elements_seen, global_made, apply_bytes, body_seen, blocks_seen, first_of, data_offset, imports_seen, exports_seen, memories_seen, memory_of, image_seen};

use crate::bodies::bodies;
use crate::elements::{elements, tables};
use crate::exported::add_winners;
use crate::functions::defined_types;
use crate::imports::{add_functions, add_globals};
use crate::made_globals::globals;
use crate::memory::{imports_memory, memories, memory, memory_exports, memory_imports};
use crate::placed::{blocks, offset};
use crate::shared::{add_table, custom};
use crate::types::copied;
use image_emit::{Image, PlacedSource, Source};
use link_layout::Layout;
use link_program::{Winner, mode_of};
use made_symbols::Mode;
use std::alloc::Global;
use wasm_module::{Element, Export, ModuleGlobal};
use wasm_types::{ConstExpr, FuncType, Import, Limits, TableType};
use wl_base::{OutOfMemory, Seq};

// The imports: the memory, if it is imported, the table of a shared output, then functions, then globals.
fn imports(
    alloc: Global,
    mode: Mode,
    layout: Layout<'_>,
    memory: Limits,
) -> Result<Seq<Import>, OutOfMemory>
    requires { memory ≡ memory_of mode layout }
    ensures { IfOk result (λ imports. imports ≡ imports_seen mode layout.entry) }
{
    let numbering = layout.numbering;
    let resolution = layout.program.resolution;
    let imported = imports_memory(mode, layout.program.plan.import_memory);
    let mut imports = memory_imports(alloc, imported, memory)?;
    add_table(alloc, mode, numbering.slots().len(), &mut imports)?;
    add_functions(
        alloc,
        resolution,
        numbering.functions(),
        numbering.function_types(),
        &mut imports,
    )?;
    add_globals(alloc, resolution, numbering.globals(), &mut imports)?;
    Ok(imports)
}

// The exports: the memory, unless it is imported, then the exported winners.
fn exports(
    alloc: Global,
    mode: Mode,
    layout: Layout<'_>,
    winners: &[Winner],
) -> Result<Seq<Export>, OutOfMemory>
    ghost w: { Exporting }
    requires program { IsProgram layout.program w.program }
    requires winners { All (Contains w.program.winners) w.exports }
    requires exports { winners.now ≡ map (told_winner layout.program.names.now.names) w.exports }
    ensures { IfOk result (λ exports. exports ≡ exports_seen mode layout.entry w.program w.exports) }
{
    let imported = imports_memory(mode, layout.program.plan.import_memory);
    let mut exports = memory_exports(alloc, imported)?;
    add_winners(
        alloc,
        mode,
        layout.program,
        layout.numbering,
        winners,
        &mut exports,
    )?;
    Ok(exports)
}

// What is declared: types, imports, the types of functions, and globals.
#[derive(Drop)]
struct Declared {
    types: Seq<FuncType>,
    imports: Seq<Import>,
    functions: Seq<u32>,
}

// What is defined beside functions.
#[derive(Drop)]
struct Defined {
    tables: Seq<TableType>,
    memories: Seq<Limits>,
    globals: Seq<ModuleGlobal>,
    exports: Seq<Export>,
}

// What is held: elements, bodies and data.
#[derive(Drop)]
struct Held {
    elements: Seq<Element>,
    bodies: Seq<Source>,
    data_offset: ConstExpr,
    blocks: Seq<PlacedSource>,
}

fn make_declared(
    alloc: Global,
    mode: Mode,
    layout: Layout<'_>,
    memory: Limits,
) -> Result<Declared, OutOfMemory>
    requires { memory ≡ memory_of mode layout }
    ensures types { IfOk result (λ d. d.types ≡ layout.entry.numbering.now.types) }
    ensures imports { IfOk result (λ d. d.imports ≡ imports_seen mode layout.entry) }
    ensures functions { IfOk result (λ d. d.functions ≡ types_seen layout.entry.numbering.now.function_types layout.entry.numbering.now.functions) }
{
    let numbering = layout.numbering;
    let types = copied(alloc, numbering.types())?;
    let imports = imports(alloc, mode, layout, memory)?;
    let functions = defined_types(alloc, numbering.functions(), numbering.function_types())?;
    Ok(Declared {
        types,
        imports,
        functions,
    })
}

fn make_defined(
    alloc: Global,
    mode: Mode,
    layout: Layout<'_>,
    winners: &[Winner],
    memory: Limits,
) -> Result<Defined, OutOfMemory>
    ghost s: { Stage }
    requires layout { IsLayout s.program s.parts s.exports layout }
    requires winners { All (Contains s.program.winners) s.exports }
    requires exports { winners.now ≡ map (told_winner layout.program.names.now.names) s.exports }
    requires memory { memory ≡ memory_of mode layout }
    ensures tables { IfOk result (λ d. d.tables ≡ by_mode mode (table_seen (length (takers_of layout.entry.numbering.now)) ∷ []) []) }
    ensures memories { IfOk result (λ d. d.memories ≡ memories_seen mode layout.entry) }
    ensures globals { IfOk result (λ d. d.globals ≡ filter_map (global_made mode (values.address_of (mode_of s.program.plan) (output.layout (mode_of s.program.plan) s.program s.parts s.exports)) (looked layout.entry)) layout.entry.numbering.now.globals) }
    ensures exports { IfOk result (λ d. d.exports ≡ exports_seen mode layout.entry s.program s.exports) }
{
    let tables = tables(alloc, mode, layout.numbering.takers().len())?;
    let imported = imports_memory(mode, layout.program.plan.import_memory);
    let memories = memories(alloc, imported, memory)?;
    let globals = globals(alloc, layout, mode)?;
    let exports = exports(alloc, mode, layout, winners)?;
    Ok(Defined {
        tables,
        memories,
        globals,
        exports,
    })
}

fn make_held(
    alloc: Global,
    mode: Mode,
    layout: Layout<'_>,
    live: &[u32],
) -> Result<Held, OutOfMemory>
    ghost s: { Stage }
    requires differ { ChunksDiffer layout.program.tables.now.chunks }
    requires layout { IsLayout s.program s.parts s.exports layout }
    requires live { AreLive s.program live.now s.parts }
    ensures elements { IfOk result (λ h. h.elements ≡ elements_seen mode (takers_of layout.entry.numbering.now)) }
    ensures bodies { IfOk result (λ h. h.bodies ≡ filter_map (body_seen (apply_bytes s) (looked layout.entry)) layout.entry.numbering.now.functions) }
    ensures offset { IfOk result (λ h. h.data_offset ≡ data_offset mode (first_of (blocks_seen layout.entry live.now))) }
    ensures data { IfOk result (λ h. h.blocks ≡ blocks_seen layout.entry live.now) }
{
    let elements = elements(alloc, mode, layout.numbering.takers())?;
    let bodies = bodies(alloc, layout, live)?;
    let blocks = blocks(alloc, layout, live)?;
    let data_offset = offset(mode, blocks.as_slice())?;
    Ok(Held {
        elements,
        bodies,
        data_offset,
        blocks,
    })
}

// The parts put together.
fn joined(custom: Option<Seq<u8>>, declared: Declared, defined: Defined, held: Held) -> Image
    ensures { result ≡ joined_image custom declared defined held }
{
    let Declared {
        types,
        imports,
        functions,
    } = declared;
    let Defined {
        tables,
        memories,
        globals,
        exports,
    } = defined;
    let Held {
        elements,
        bodies,
        data_offset,
        blocks,
    } = held;
    Image {
        custom,
        types,
        imports,
        functions,
        tables,
        memories,
        globals,
        exports,
        elements,
        bodies,
        data_offset,
        blocks,
    }
}

// The image, by the data alone.
fn image_seen(
    alloc: Global,
    layout: Layout<'_>,
    winners: &[Winner],
    live: &[u32],
) -> Result<Image, OutOfMemory>
    ghost s: { Stage }
    requires layout { IsLayout s.program s.parts s.exports layout }
    requires live { AreLive s.program live.now s.parts }
    requires winners { All (Contains s.program.winners) s.exports }
    requires exports { winners.now ≡ map (told_winner layout.program.names.now.names) s.exports }
    ensures { IfOk result (λ image. image ≡ image_seen s layout.entry live.now) }
{
    let mode = mode_of(layout.program.plan);
    let places = &layout.placed.places;
    let most = layout.program.plan.max_memory;
    let memory = memory(mode, places.pages, places.data_end, most)?;
    let custom = custom(alloc, mode, layout, live)?;
    let declared = make_declared(alloc, mode, layout, memory)?;
    let defined = make_defined(alloc, mode, layout, winners, memory)?;
    let held = make_held(alloc, mode, layout, live)?;
    Ok(joined(custom, declared, defined, held))
}

/// The image of the output: its sections by the numbers and places of a layout. `exports` are the exported winners, `live` the numbers
/// of the live parts.
///
/// Bodies of functions of objects and data are parts of files, with no window written.
pub fn image(
    alloc: Global,
    layout: Layout<'_>,
    exports: &[Winner],
    live: &[u32],
) -> Result<Image, OutOfMemory>
    ghost s: { Stage }
    requires layout { IsLayout s.program s.parts s.exports layout }
    requires live { AreLive s.program live.now s.parts }
    requires winners { All (Contains s.program.winners) s.exports }
    requires exports { exports.now ≡ map (told_winner layout.program.names.now.names) s.exports }
    ensures { IfOk result (λ image. image ≡ output.image (mode_of s.program.plan) s.program s.parts s.exports (output.layout (mode_of s.program.plan) s.program s.parts s.exports)) }
{
    let image = image_seen(alloc, layout, exports, live)?;
    Ok(image)
}
