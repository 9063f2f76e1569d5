//! What the section `dylink.0` tells the loader.
ghost use Rattle.std.specs.Prelude.{◌≡◌, ◌++◌, max, map, filter_map, length, true, IfOk, OnOk, IsTrue, All};
ghost use Rattle.std.specs.Option.{option_to_list};
ghost use Rattle.std.specs.List.{list_all};
ghost use Rattle.link_program.specs.link_rules.ModeOf.{mode_of as asked_mode};
ghost use Rattle.link_program.specs.link_rules.Loader as loader;
ghost use Rattle.link_program.specs.link_rules.Loader.{greatest};
ghost use Rattle.link_program.specs.link_rules.Output.{layout as laid_out};
ghost use Rattle.link_program.specs.made_symbols.declared.mode.Mode.TheVariants.{Shared};
ghost use Rattle.link_program.specs.made_symbols.Made.{made};
ghost use Rattle.link_program.specs.Live.{Stage, AreLive};
ghost use Rattle.link_program.specs.Seen.{NamesOne};
ghost use Rattle.link_layout.specs.Layout.{looked, IsLayout};
ghost use Rattle.link_loader.specs.Section.{content_align, align_at, greatest_align, info_seen, function_info, global_info, infos_seen, dylink_seen};
ghost use Rattle.link_loader.specs.Bound.{bound_part};
ghost use Rattle.link_loader.specs.Cells.{all_tell};

use crate::bound::all_are_bound;
use crate::cells::all_tell;
use crate::weak::{flag_at, weak_imports};
use dylink_out::{Dylink, ImportInfo};
use link_layout::Layout;
use link_program::{Content, FunctionKey, GlobalKey, Mode, Resolution, Tables, mode_of, part_at};
use mark_bits::kinds as chunk_kinds;
use std::alloc::Global;
use wl_base::{OutOfMemory, Seq};

// The exponent of a segment's alignment.
fn content_align(content: Content) -> u32
    ensures { result ≡ content_align content }
{
    match content {
        Content::Segment { align, flags: _ } => align,
        Content::Function(_) | Content::Global { kind: _, value: _ } | Content::Made => 0,
    }
}

// The same of a part that is a segment; 0 of others.
fn align_at(tables: &Tables, number: u32) -> u32
    ensures { result ≡ align_at tables.now number }
{
    let part = part_at(tables, number);
    if part.chunk.kind == chunk_kinds::SEGMENT {
        content_align(part.content)
    } else {
        0
    }
}

// The greater one.
fn greater(a: u32, b: u32) -> u32
    ensures { result ≡ max a b }
{
    a.max(b)
}

// The greatest one among these parts.
#[tactic(auto, using(crate::proofs::Greatest::begun, crate::proofs::Greatest::more, crate::proofs::Greatest::ended))]
fn greatest_align(tables: &Tables, live: &[u32]) -> u32
    ensures { result ≡ greatest_align tables.now live.now }
{
    let mut greatest = 0;
    for number in live {
        greatest = greater(greatest, align_at(tables, *number));
    }
    greatest
}

// What is told of an import, if it may be absent.
fn info(
    alloc: Global,
    resolution: &Resolution,
    weak: &[bool],
    number: u32,
) -> Result<Option<ImportInfo>, OutOfMemory>
    ensures { IfOk result (λ i. i ≡ info_seen resolution.now.imports weak.now number) }
{
    if number >= resolution.imports() || !flag_at(weak, number) {
        return Ok(None);
    }
    let (module, field) = resolution.import(number);
    let module = Seq::from_slice(alloc, module)?;
    let field = Seq::from_slice(alloc, field)?;
    Ok(Some(ImportInfo {
        module,
        field,
        flags: 1,
    }))
}

fn function_info(
    alloc: Global,
    resolution: &Resolution,
    weak: &[bool],
    key: FunctionKey,
) -> Result<Option<ImportInfo>, OutOfMemory>
    ensures { IfOk result (λ i. i ≡ function_info resolution.now.imports weak.now key) }
{
    match key {
        FunctionKey::Import(number) => info(alloc, resolution, weak, number),
        FunctionKey::Own { input: _, index: _ } | FunctionKey::Stub(_) => Ok(None),
    }
}

fn global_info(
    alloc: Global,
    resolution: &Resolution,
    weak: &[bool],
    key: GlobalKey,
) -> Result<Option<ImportInfo>, OutOfMemory>
    ensures { IfOk result (λ i. i ≡ global_info resolution.now.imports weak.now key) }
{
    match key {
        GlobalKey::Import(number) => info(alloc, resolution, weak, number),
        GlobalKey::Own { input: _, index: _ } | GlobalKey::Got(_) | GlobalKey::Datum(_) => Ok(None),
    }
}

// Adds what is there.
fn add(infos: &mut Seq<ImportInfo>, info: Option<ImportInfo>) -> Result<(), OutOfMemory>
    ensures { OnOk result (infos.new ≡ infos.old ++ option_to_list info) }
{
    match info {
        Some(info) => infos.push(info),
        None => Ok(()),
    }
}

// Adds what is told of imported functions.
fn add_functions(
    alloc: Global,
    resolution: &Resolution,
    weak: &[bool],
    keys: &[FunctionKey],
    infos: &mut Seq<ImportInfo>,
) -> Result<(), OutOfMemory>
    ensures { OnOk result (infos.new ≡ infos.old ++ filter_map (function_info resolution.now.imports weak.now) keys.now) }
{
    for key in keys {
        let info = function_info(alloc, resolution, weak, *key)?;
        add(infos, info)?;
    }
    Ok(())
}

// Adds what is told of imported globals.
fn add_globals(
    alloc: Global,
    resolution: &Resolution,
    weak: &[bool],
    keys: &[GlobalKey],
    infos: &mut Seq<ImportInfo>,
) -> Result<(), OutOfMemory>
    ensures { OnOk result (infos.new ≡ infos.old ++ filter_map (global_info resolution.now.imports weak.now) keys.now) }
{
    for key in keys {
        let info = global_info(alloc, resolution, weak, *key)?;
        add(infos, info)?;
    }
    Ok(())
}

// What is told of the output's imports.
fn infos(alloc: Global, layout: Layout<'_>, live: &[u32]) -> Result<Seq<ImportInfo>, OutOfMemory>
    requires { length layout.program.names.now.made ≡ length (made Shared) }
    ensures { IfOk result (λ infos. infos ≡ infos_seen layout.entry live.now) }
{
    let weak = weak_imports(alloc, layout.program, live)?;
    let resolution = layout.program.resolution;
    let mut infos = Seq::new(alloc);
    add_functions(
        alloc,
        resolution,
        weak.as_slice(),
        layout.numbering.functions(),
        &mut infos,
    )?;
    add_globals(
        alloc,
        resolution,
        weak.as_slice(),
        layout.numbering.globals(),
        &mut infos,
    )?;
    Ok(infos)
}

// The section, by the data alone. 2^32 slots and more are answered as want of memory.
fn dylink_seen(alloc: Global, layout: Layout<'_>, live: &[u32]) -> Result<Dylink, OutOfMemory>
    requires { length layout.program.names.now.made ≡ length (made Shared) }
    ensures { IfOk result (λ d. d ≡ dylink_seen layout.entry live.now) }
{
    let Ok(slots) = u32::try_from(layout.numbering.slots().len()) else {
        return Err(OutOfMemory);
    };
    let imports = infos(alloc, layout, live)?;
    Ok(Dylink {
        memory_size: layout.placed.places.data_end,
        memory_align: greatest_align(layout.program.tables, live),
        table_size: slots,
        table_align: 0,
        needed: Seq::new(alloc),
        exports: Seq::new(alloc),
        imports,
    })
}

// Whether the data tell of cells as the definition does, which holds of all that the earlier steps let through.
fn are_told(layout: Layout<'_>, live: &[u32]) -> bool
    requires { All (λ row. All (NamesOne layout.program.tables.now.symbols layout.program.tables.now.types) row) layout.program.tables.now.named }
    ensures cells { IsTrue result → all_tell layout.entry.program.names.now.names layout.entry.program.resolution.now.imports layout.entry.program.resolution.now.cells 0 layout.entry.program.tables.now.symbols ≡ true }
    ensures windows { IsTrue result → list_all (bound_part layout.entry.program.tables.now) live.now ≡ true }
{
    all_tell(layout.program) && all_are_bound(layout.program.tables, live)
}

// The section of a shared output.
fn shared_dylink(alloc: Global, layout: Layout<'_>, live: &[u32]) -> Result<Dylink, OutOfMemory>
    ghost s: { Stage }
    requires layout { IsLayout s.program s.parts s.exports layout }
    requires live { AreLive s.program live.now s.parts }
    requires shared { asked_mode s.program.plan ≡ Shared }
    ensures { IfOk result (λ d. d ≡ loader.dylink (asked_mode s.program.plan) s.program s.parts (laid_out (asked_mode s.program.plan) s.program s.parts s.exports)) }
{
    if !are_told(layout, live) {
        return Err(OutOfMemory);
    }
    let d = dylink_seen(alloc, layout, live)?;
    Ok(d)
}

/// What the loader of a shared output is told: the bytes of memory and the slots of the table that it takes, with the memory's alignment, and
/// which imports may be absent. `live` has the numbers of the live parts.
///
/// # Errors
///
/// Memory is refused; and of a plain output, which has no such section, it is always answered.
pub fn dylink(alloc: Global, layout: Layout<'_>, live: &[u32]) -> Result<Dylink, OutOfMemory>
    ghost s: { Stage }
    requires layout { IsLayout s.program s.parts s.exports layout }
    requires live { AreLive s.program live.now s.parts }
    ensures { IfOk result (λ d. d ≡ loader.dylink (asked_mode s.program.plan) s.program s.parts (laid_out (asked_mode s.program.plan) s.program s.parts s.exports)) }
{
    match mode_of(layout.program.plan) {
        Mode::Plain => Err(OutOfMemory),
        Mode::Shared => {
            let d = shared_dylink(alloc, layout, live)?;
            Ok(d)
        }
    }
}
