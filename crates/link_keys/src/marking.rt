//! The live parts, one after another.
ghost use Rattle.std.specs.Prelude.{◌≡◌, ◌==◌, [], map, slice_index_or, replicate, fold, IfOk, OnOk};
ghost use Rattle.link_program.specs.Seen.{no_symbol};
ghost use Rattle.link_program.specs.Look.{part_at, row_at};
ghost use Rattle.link_keys.specs.LiveRefs.{is_code};
ghost use Rattle.link_keys.specs.Asked.{sort_of};
ghost use Rattle.link_keys.specs.Noted.{noted, noted_ref, noted_part, noted_parts, nothing_noted};

use crate::asked::{Sort, asks_nothing, sort_at, sorts_of};
use crate::marks::Marks;
use crate::sharing::{all_joined, each_noted, ranges_for};
use link_program::{Named, Symbol, Tables, part_at, row_at, symbol_at};
use mark_bits::kinds as chunk_kinds;
use std::alloc::Global;
use std::thread::Threads;
use wl_base::OutOfMemory;
use wl_fan::Workers;

/// Notes a reference, unless its symbol's sort tells that it asks for nothing.
fn note_reference(
    marks: &mut Marks,
    symbols: &[Symbol],
    sorts: &[Sort],
    code: bool,
    kind: u8,
    symbol: u32,
) -> Result<(), OutOfMemory>
    requires { sorts.now ≡ map sort_of symbols.now }
    ensures { OnOk result (marks.new ≡ noted_ref code kind (slice_index_or symbols.now symbol no_symbol) marks.old) }
{
    if asks_nothing(kind, sort_at(sorts, symbol)) {
        return Ok(());
    }
    marks.reference(code, kind, symbol_at(symbols, symbol))
}

/// Notes what a window of a part names.
fn note(
    marks: &mut Marks,
    symbols: &[Symbol],
    sorts: &[Sort],
    code: bool,
    named: Named,
) -> Result<(), OutOfMemory>
    requires { sorts.now ≡ map sort_of symbols.now }
    ensures { OnOk result (marks.new ≡ noted symbols.now code marks.old named) }
{
    match named {
        Named::Symbol {
            kind,
            place: _,
            addend: _,
            symbol,
        } => note_reference(marks, symbols, sorts, code, kind, symbol),
        Named::Type { place: _, number } => marks.window(number),
    }
}

/// Notes what a part names.
fn note_row(
    marks: &mut Marks,
    symbols: &[Symbol],
    sorts: &[Sort],
    code: bool,
    row: &[Named],
) -> Result<(), OutOfMemory>
    requires { sorts.now ≡ map sort_of symbols.now }
    ensures { OnOk result (marks.new ≡ fold (noted symbols.now code) marks.old row.now) }
{
    for named in row {
        note(marks, symbols, sorts, code, *named)?;
    }
    Ok(())
}

/// Notes what a live part names.
fn note_part(
    marks: &mut Marks,
    tables: &Tables,
    sorts: &[Sort],
    number: u32,
) -> Result<(), OutOfMemory>
    requires { sorts.now ≡ map sort_of tables.now.symbols }
    ensures { OnOk result (marks.new ≡ noted_part tables.now marks.old number) }
{
    let code = part_at(tables, number).chunk.kind == chunk_kinds::FUNCTION;
    let row = row_at(tables, number);
    note_row(marks, tables.symbols.as_slice(), sorts, code, row)
}

/// What live parts ask for, where there are so many imports and names, noted by one worker.
pub(crate) fn marks_in(
    alloc: Global,
    tables: &Tables,
    sorts: &[Sort],
    live: &[u32],
    imports: usize,
    names: usize,
) -> Result<Marks, OutOfMemory>
    requires { sorts.now ≡ map sort_of tables.now.symbols }
    ensures { IfOk result (λ m. m ≡ noted_parts tables.now (nothing_noted imports names) live.now) }
{
    let mut marks = Marks::new(alloc, imports, names)?;
    for number in live {
        note_part(&mut marks, tables, sorts, *number)?;
    }
    Ok(marks)
}

/// What the live parts ask for, where there are so many imports and names. It is noted by the workers, where the parts name much.
pub fn marks_of<R: Threads + Sync>(
    rt: &R,
    alloc: Global,
    tables: &Tables,
    live: &[u32],
    imports: usize,
    names: usize,
    workers: Workers,
) -> Result<Marks, OutOfMemory>
    ensures { IfOk result (λ m. m ≡ noted_parts tables.now (nothing_noted imports names) live.now) }
{
    let sorts = sorts_of(rt, alloc, tables.symbols.as_slice(), workers)?;
    let ranges = ranges_for(alloc, tables, live, workers)?;
    let slots = each_noted(rt, alloc, tables, &sorts, live, imports, names, &ranges)?;
    let marks = all_joined(slots)?;
    Ok(marks)
}
