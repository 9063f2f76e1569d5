//! The numbers of a shared output. Its live parts are noted as those of a plain one; but functions are imported to be called alone, the link's
//! own functions alone have slots, which begin at 0, and foreign addresses stand in imported cells.
ghost use Rattle.std.specs.Prelude.{◌≡◌, ◌+◌, ◌<◌, ◌^◌, Some, length, IfOk};
ghost use Rattle.link_keys.specs.link_program.name_entries.Fits.{FitsObjects};
ghost use Rattle.link_keys.specs.link_program.table_layout.Slots.{table_overflow};
ghost use Rattle.shared_keys.specs.Cells.{OneEach};
ghost use Rattle.link_numbers.specs.Numbered.{TellsOverflow};
ghost use Rattle.link_numbers.specs.SharedNumbered.{shared_slots, shared_by, shared_noted, shared_numbered, all_slots};

use crate::giving::{numbering_of, slots_of};
use crate::numbering::Numbering;
use link_keys::{
    Entries, FunctionKey, Marks, Program, Winner, functions_listed, marks_of, types_told,
};
use shared_keys::{called_imports, globals_listed, own_functions_of};
use std::alloc::Global;
use std::thread::Threads;
use wl_base::{LayoutError, OutOfMemory};
use wl_fan::Workers;

/// The number of the first slot: they count from the table's base.
const FIRST_SLOT: u32 = 0;

/// The functions that have slots, where a table can have so many.
fn own_slots(
    alloc: Global,
    marks: &Marks,
    functions: &[FunctionKey],
) -> Result<Vec<FunctionKey>, LayoutError>
    ensures slots { IfOk result (λ slots. slots.items ≡ shared_slots marks.now functions.now) }
    ensures few { IfOk result (λ slots. 0 + length slots.items < 2 ^ 32) }
    ensures table { TellsOverflow result (table_overflow 0 (length (shared_slots marks.now functions.now))) }
{
    let own = own_functions_of(alloc, functions)?;
    let slots = slots_of(alloc, FIRST_SLOT, marks, own.as_slice())?;
    Ok(slots)
}

/// The numbers by what the live parts ask for.
fn numbers_marked(
    alloc: Global,
    program: Program<'_>,
    entries: Entries<'_>,
    exports: &[Winner],
    live: &[u32],
    marks: &Marks,
) -> Result<Numbering, LayoutError>
    requires one { OneEach program.resolution.now.imports }
    requires fits { FitsObjects entries }
    requires rows { length program.names.now.symbols ≡ length entries.objects.now }
    ensures numbers { IfOk result (λ n. shared_by program.entry entries.entry.objects.now exports.now live.now marks.now ≡ Some n) }
    ensures table { TellsOverflow result (table_overflow 0 (length (all_slots program.entry live.now marks.now))) }
{
    let functions = functions_listed(alloc, program, live, marks)?;
    let slots = own_slots(alloc, marks, functions.as_slice())?;
    let globals = globals_listed(alloc, program, live, exports, marks)?;
    let types = types_told(alloc, program, entries, live, marks)?;
    let known = program.tables.types.as_slice();
    let numbering = numbering_of(alloc, FIRST_SLOT, functions, slots, globals, types, known)?;
    Ok(numbering)
}

/// What the live parts ask for, with the imports that they call, or refer to as globals.
fn marks_called<R: Threads + Sync>(
    rt: &R,
    alloc: Global,
    program: Program<'_>,
    live: &[u32],
    workers: Workers,
) -> Result<Marks, OutOfMemory>
    ensures { IfOk result (λ m. m ≡ shared_noted program.entry live.now) }
{
    let imports = program.resolution.imports() as usize;
    let names = program.names.count() as usize;
    let mut marks = marks_of(rt, alloc, program.tables, live, imports, names, workers)?;
    let called = called_imports(alloc, program, live)?;
    marks.set_imports(called);
    Ok(marks)
}

/// The numbers by what the data tell.
pub(crate) fn shared_numbers<R: Threads + Sync>(
    rt: &R,
    alloc: Global,
    program: Program<'_>,
    entries: Entries<'_>,
    exports: &[Winner],
    live: &[u32],
    workers: Workers,
) -> Result<Numbering, LayoutError>
    requires one { OneEach program.resolution.now.imports }
    requires fits { FitsObjects entries }
    requires rows { length program.names.now.symbols ≡ length entries.objects.now }
    ensures numbers { IfOk result (λ n. shared_numbered program.entry entries.entry.objects.now exports.now live.now ≡ Some n) }
    ensures table { TellsOverflow result (table_overflow 0 (length (all_slots program.entry live.now (shared_noted program.entry live.now)))) }
{
    let marks = marks_called(rt, alloc, program, live, workers)?;
    numbers_marked(alloc, program, entries, exports, live, &marks)
}
