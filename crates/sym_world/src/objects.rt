//! The loaded objects of a program as the machine takes them.
ghost use Rattle.std.specs.Prelude.{◌≡◌, map, Some, All, Contains, IfOk};
ghost use Rattle.link_program.specs.name_entries.Fits.{FitsObjects};
ghost use Rattle.link_program.specs.made_symbols.declared.mode.Mode.TheVariants as modes;
ghost use Rattle.link_program.specs.link_rules.Output.{layout as laid_out};
ghost use Rattle.link_program.specs.Live.{Stage, AreLive};
ghost use Rattle.link_program.specs.Told.{told_winner};
ghost use Rattle.link_layout.specs.Layout.{IsLayoutIn};
ghost use Rattle.link_worlds.specs.Worlds.{world_by};
ghost use Rattle.run_laws.specs.Objects.{sym_segment, blocks_of, objects_of};
ghost use Rattle.sym_world.specs.Choosing.{IsStage};
ghost use Rattle.sym_functions.specs.sym_parts.Sought.{known};
ghost use Rattle.sym_functions.specs.SoughtOf.{IsSoughtOf};

use crate::world::{exports_of, most_pages};
use link_layout::Layout;
use link_program::{Entries, Winner};
use run_machines::{SymSegment, SymWorld};
use run_rules::World;
use std::alloc::Global;
use sym_functions::{
    Cells, Functions, Sought, bases_of, first_cells, functions, numbers_in_order, segments_of,
    table,
};
use wl_base::{OutOfMemory, Seq};

/// What the machine asks of the objects.
fn world(
    alloc: Global,
    layout: Layout<'_>,
    k: Sought<'_>,
    entries: Entries<'_>,
    files: &[Seq<u8>],
    exports: &[Winner],
) -> Result<World, OutOfMemory>
    ghost s: { Stage }
    requires layout { IsLayoutIn modes.Plain s.program s.parts s.exports layout }
    requires sought { IsSoughtOf (laid_out modes.Plain s.program s.parts s.exports) layout k }
    requires fits { FitsObjects entries }
    requires objects { entries.objects.now ≡ layout.program.objects.now }
    requires names { entries.names.now ≡ layout.program.names.now }
    requires files { files.now ≡ s.program.files }
    requires winners { All (Contains s.program.winners) s.exports }
    requires exports { exports.now ≡ map (told_winner layout.program.names.now.names) s.exports }
    ensures { IfOk result (λ w. w ≡ world_by s.program (laid_out modes.Plain s.program s.parts s.exports) s.exports) }
{
    let program = layout.program;
    let functions = functions(alloc, layout, k, entries, files)?;
    let table = table(alloc, layout, k)?;
    let exports = exports_of(alloc, layout, k.functions, k.cells, exports)?;
    let most = most_pages(program.plan.max_memory)?;
    Ok(World {
        functions,
        table: Some(table),
        exports,
        memory: Some(most),
    })
}

/// What the memory holds at first.
fn segments(
    alloc: Global,
    layout: Layout<'_>,
    k: Sought<'_>,
    files: &[Seq<u8>],
    live: &[u32],
) -> Result<Seq<SymSegment>, OutOfMemory>
    ghost s: { Stage }
    requires layout { IsLayoutIn modes.Plain s.program s.parts s.exports layout }
    requires sought { IsSoughtOf (laid_out modes.Plain s.program s.parts s.exports) layout k }
    requires files { files.now ≡ s.program.files }
    requires live { AreLive s.program live.now s.parts }
    ensures { IfOk result (λ ss. ss ≡ map sym_segment (blocks_of s.program s.parts (laid_out modes.Plain s.program s.parts s.exports))) }
{
    let numbers = numbers_in_order(alloc, k.tables, files, live)?;
    let addresses = layout.placed.addresses.as_slice();
    let segments = segments_of(alloc, k, files, addresses, &numbers)?;
    Ok(segments)
}

/// The loaded objects of a program as the machine takes them.
pub(crate) fn objects(
    alloc: Global,
    layout: Layout<'_>,
    entries: Entries<'_>,
    files: &[Seq<u8>],
    exports: &[Winner],
    live: &[u32],
) -> Result<SymWorld, OutOfMemory>
    ghost s: { Stage }
    requires layout { IsLayoutIn modes.Plain s.program s.parts s.exports layout }
    requires fits { FitsObjects entries }
    requires objects { entries.objects.now ≡ layout.program.objects.now }
    requires names { entries.names.now ≡ layout.program.names.now }
    requires files { files.now ≡ s.program.files }
    requires live { AreLive s.program live.now s.parts }
    requires winners { All (Contains s.program.winners) s.exports }
    requires exports { exports.now ≡ map (told_winner layout.program.names.now.names) s.exports }
    requires stage { IsStage s }
    ensures { IfOk result (λ w. w ≡ objects_of s.program s.exports) }
{
    let program = layout.program;
    let functions = Functions::new(alloc, program.resolution, program.tables)?;
    let cells = Cells::new(alloc, program.resolution, program.tables)?;
    let bases = bases_of(alloc, layout)?;
    let k = Sought {
        tables: program.tables,
        bases: &bases,
        functions: &functions,
        cells: &cells,
    };
    let world = world(alloc, layout, k, entries, files, exports)?;
    let places = &layout.placed.places;
    let top = places.stack_high;
    let firsts = first_cells(alloc, program.tables, program.resolution, top, cells.keys())?;
    let segments = segments(alloc, layout, k, files, live)?;
    Ok(SymWorld {
        world,
        cells: firsts,
        imported: program.plan.import_memory,
        pages: places.pages,
        segments,
    })
}
