//! The numbers of the live parts of a program.
ghost use Rattle.std.specs.Prelude.{◌≡◌, ◌+◌, ◌<◌, ◌^◌, List, map, length, IfOk};
ghost use Rattle.link_keys.specs.link_program.index_layout.Numbers.{number_by};
ghost use Rattle.link_keys.specs.link_program.name_entries.Fits.{FitsObjects, Fits};
ghost use Rattle.link_keys.specs.link_program.table_layout.Slots.{table_overflow};
ghost use Rattle.link_keys.specs.link_program.link_rules.ModeOf.{mode_of};
ghost use Rattle.link_keys.specs.link_program.link_rules.Keys.{numbers};
ghost use Rattle.link_keys.specs.link_program.Told.{told_winner};
ghost use Rattle.link_keys.specs.link_program.Keys.{same_function_key};
ghost use Rattle.link_keys.specs.link_program.Program.{IsProgramOf};
ghost use Rattle.link_keys.specs.link_program.Stand.{PartsStand};
ghost use Rattle.link_keys.specs.link_program.Live.{AreLive, AllMeant};
ghost use Rattle.link_keys.specs.Codes.{global_code};
ghost use Rattle.link_numbers.specs.Places.{ArePlaces};
ghost use Rattle.link_keys.specs.Lists.{slots_listed};
ghost use Rattle.link_keys.specs.Types.{type_number_in};
ghost use Rattle.link_numbers.specs.Laws.{AreImported};
ghost use Rattle.link_numbers.specs.Numbered.{Linked, IsNumbering, TellsOverflow, numbered_by, numbered};

use crate::functions::FunctionNumbers;
use crate::numbering::Numbering;
use crate::places::Places;
use crate::shared::shared_numbers;
use link_keys::{
    Entries, FunctionKey, GlobalKey, Marks, Program, TypeNumbers, Winner, functions_listed,
    global_codes, globals_listed, marks_of, numbers_in, slots_taken, types_told,
};
use link_program::{Mode, mode_of};
use std::alloc::Global;
use std::thread::Threads;
use wasm_types::FuncType;
use wl_base::{LayoutError, OutOfMemory, Seq, What};
use wl_fan::Workers;

/// The number of the first slot of a plain output; slot 0 stays empty.
const FIRST_SLOT: u32 = 1;

/// Refuses more slots, from the first one on, than a table can have.
pub(crate) fn check_slots(first: u32, count: usize) -> Result<(), LayoutError>
    ensures end { TellsOverflow result (table_overflow first count) }
    ensures few { IfOk result (λ _. first + count < 2 ^ 32) }
{
    let Some(end) = (first as usize).checked_add(count) else {
        return Err(LayoutError::OutOfMemory);
    };
    if end > u32::MAX as usize {
        if end > i64::MAX as usize {
            return Err(LayoutError::OutOfMemory);
        }
        return Err(LayoutError::Overflow {
            what: What::TableSize,
            needed: end as i64,
        });
    }
    Ok(())
}

/// The numbers of the functions that have slots.
fn takers_of(
    alloc: Global,
    functions: &FunctionNumbers,
    slots: &[FunctionKey],
) -> Result<Vec<u32>, OutOfMemory>
    ensures { IfOk result (λ takers. takers.items ≡ map (number_by same_function_key functions.now) slots.now) }
{
    let mut takers = Vec::with_capacity(alloc, slots.len())?;
    for key in slots {
        takers.push(functions.of_or_first(*key))?;
    }
    Ok(takers)
}

/// The places of globals.
fn places_of_globals(alloc: Global, keys: &[GlobalKey]) -> Result<Places, OutOfMemory>
    ensures { IfOk result (λ places. ArePlaces (map global_code keys.now) places) }
{
    let codes = global_codes(alloc, keys)?;
    Places::new(alloc, codes.as_slice())
}

/// The numbers by these lists of keys, by the types of the functions, and by those that the program knows.
#[tactic(auto, using(link_keys::proofs::Steps::longer))]
pub(crate) fn numbering_of(
    alloc: Global,
    first_slot: u32,
    functions: Vec<FunctionKey>,
    slots: Vec<FunctionKey>,
    globals: Vec<GlobalKey>,
    types: TypeNumbers,
    known: &[FuncType],
) -> Result<Numbering, OutOfMemory>
    requires { first_slot + length slots.items < 2 ^ 32 }
    ensures { IfOk result (λ n. n ≡ record {
      functions = functions.items;
      slots = slots.items;
      first_slot = first_slot;
      globals = globals.items;
      types = types.table;
      function_types = types.numbers;
      type_numbers = map (type_number_in types.table) known.now;
    }) }
{
    let functions = FunctionNumbers::new(alloc, functions)?;
    let takers = takers_of(alloc, &functions, slots.as_slice())?;
    let slots = FunctionNumbers::new(alloc, slots)?;
    let global_places = places_of_globals(alloc, globals.as_slice())?;
    let (mut table, numbers) = types.into_parts();
    let type_count = table.types().len();
    let type_numbers = numbers_in(alloc, &mut table, known)?;
    Ok(Numbering {
        functions,
        slots,
        takers: Seq::from_vec(takers),
        first_slot,
        globals: Seq::from_vec(globals),
        global_places,
        types: table,
        type_count,
        function_types: Seq::from_vec(numbers),
        type_numbers: Seq::from_vec(type_numbers),
    })
}

/// The functions that have slots, where a table can have so many.
pub(crate) fn slots_of(
    alloc: Global,
    first: u32,
    marks: &Marks,
    functions: &[FunctionKey],
) -> Result<Vec<FunctionKey>, LayoutError>
    ensures slots { IfOk result (λ slots. slots.items ≡ slots_listed marks.now.taken functions.now) }
    ensures few { IfOk result (λ slots. first + length slots.items < 2 ^ 32) }
    ensures table { TellsOverflow result (table_overflow first (length (slots_listed marks.now.taken functions.now))) }
{
    let slots = slots_taken(alloc, marks, functions)?;
    check_slots(first, slots.len())?;
    Ok(slots)
}

/// The numbers by what the live parts ask for.
fn numbers_marked(
    alloc: Global,
    program: Program<'_>,
    entries: Entries<'_>,
    exports: &[Winner],
    live: &[u32],
    marks: &Marks,
) -> Result<Numbering, LayoutError>
    requires fits { FitsObjects entries }
    requires rows { length program.names.now.symbols ≡ length entries.objects.now }
    ensures numbers { IfOk result (λ n. n ≡ numbered_by program.entry.resolution.now.imports (length program.entry.names.now.names)
        program.entry.tables.now entries.entry.objects.now program.entry.names.now.symbols exports.now live.now marks.now) }
    ensures table { TellsOverflow result (table_overflow 1 (length (numbered_by program.entry.resolution.now.imports
        (length program.entry.names.now.names) program.entry.tables.now entries.entry.objects.now program.entry.names.now.symbols exports.now
        live.now marks.now).slots)) }
{
    let functions = functions_listed(alloc, program, live, marks)?;
    let slots = slots_of(alloc, FIRST_SLOT, marks, functions.as_slice())?;
    let globals = globals_listed(alloc, program, live, exports, marks)?;
    let types = types_told(alloc, program, entries, live, marks)?;
    let known = program.tables.types.as_slice();
    let numbering = numbering_of(alloc, FIRST_SLOT, functions, slots, globals, types, known)?;
    Ok(numbering)
}

/// The numbers of a plain output by what the data tell.
fn numbers_told<R: Threads + Sync>(
    rt: &R,
    alloc: Global,
    program: Program<'_>,
    entries: Entries<'_>,
    exports: &[Winner],
    live: &[u32],
    workers: Workers,
) -> Result<Numbering, LayoutError>
    requires fits { FitsObjects entries }
    requires rows { length program.names.now.symbols ≡ length entries.objects.now }
    ensures numbers { IfOk result (λ n. n ≡ numbered program.entry.resolution.now.imports (length program.entry.names.now.names)
        program.entry.tables.now entries.entry.objects.now program.entry.names.now.symbols exports.now live.now) }
    ensures table { TellsOverflow result (table_overflow 1 (length (numbered program.entry.resolution.now.imports
        (length program.entry.names.now.names) program.entry.tables.now entries.entry.objects.now program.entry.names.now.symbols exports.now
        live.now).slots)) }
{
    let imports = program.resolution.imports() as usize;
    let names = program.names.count() as usize;
    let marks = marks_of(rt, alloc, program.tables, live, imports, names, workers)?;
    numbers_marked(alloc, program, entries, exports, live, &marks)
}

/// The numbers of the functions, slots, globals and types of the output, by the live parts of a program, in the order of the chunk
/// table, and by its exports. It is refused with `TableSize` where the end of the slots is above 2^32 - 1; a list of 2^32 items and more is
/// answered as want of memory. What the live parts ask for is noted by the workers.
pub fn number<R: Threads + Sync>(
    rt: &R,
    alloc: Global,
    program: Program<'_>,
    entries: Entries<'_>,
    exports: &[Winner],
    live: &[u32],
    workers: Workers,
) -> Result<Numbering, LayoutError>
    ghost link: { Linked }
    requires mode { mode_of program.plan.now ≡ link.mode }
    requires fits { Fits link.mode entries }
    requires objects { entries.objects.now ≡ program.objects.now }
    requires names { entries.names.now ≡ program.names.now }
    requires is_program { IsProgramOf link.mode program link.program }
    requires stand { PartsStand link.program }
    requires live { AreLive link.program live.now link.parts }
    requires meant { AllMeant link.parts }
    requires exports { exports.now ≡ map (told_winner program.names.now.names) link.exports }
    ensures numbers { IfOk result (λ n. IsNumbering program.entry.names.now.names program.entry.resolution.now.imports
        program.entry.tables.now.types link.program link.parts n (numbers link.mode link.program link.parts link.exports)) }
    ensures imported { IfOk result (λ _. AreImported link.mode program.entry.resolution.now.imports link.program link.parts) }
    ensures table { TellsOverflow result (table_overflow (numbers link.mode link.program link.parts link.exports).first_slot
        (length (numbers link.mode link.program link.parts link.exports).slots)) }
{
    match mode_of(program.plan) {
        Mode::Plain => numbers_told(rt, alloc, program, entries, exports, live, workers),
        Mode::Shared => shared_numbers(rt, alloc, program, entries, exports, live, workers),
    }
}
