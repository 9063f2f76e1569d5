//! Two objects, of which some chunks are live.
ghost use Rattle.std.specs.Prelude.{◌≡◌, ◌<◌, length, IsTrue};
ghost use Rattle.mark_bits.specs.Seats.{IsSeatOf};
ghost use Rattle.name_meanings.specs.Means.{row_of};
ghost use Rattle.name_unresolved.specs.Unresolved.{AreMeant};

use crate::objects::{nothing, symbol};
use mark_bits::{Chunk, ChunkTable, MarkBits, MarkSeat, MarkSet, kinds};
use name_entries::{
    FunctionRef, Functions, InitFunc, Meaning, Object, Operand, Operands, SegmentRef, Segments,
    SymbolKind, Symbols, UNDEFINED,
};
use name_meanings::Resolution;
use name_unresolved::first_unresolved;
use reloc_section::kinds::{FUNCTION_INDEX_LEB, MEMORY_ADDR_I32};
use std::alloc::Global;
use std::thread::Threads;
use test_kit::reloc;
use weak_rules::inputs_rise;
use wl_base::{InputId, OutOfMemory, Seq, Span};
use wl_fan::Workers;
use wl_lists::Lists;

const SPAN: Span = Span { start: 0, len: 20 };

// ---- objects

/// Symbol 0 is defined, and the others aren't.
fn add_symbols(to: &mut Symbols) -> Result<(), OutOfMemory> {
    for flags in [0, UNDEFINED, UNDEFINED, UNDEFINED] {
        to.push(symbol(SymbolKind::Function, flags, None))?;
    }
    Ok(())
}

fn add_operands(to: &mut Operands) -> Result<(), OutOfMemory> {
    to.push(Operand::Number)?;
    for symbol in [2, 3] {
        to.push(Operand::Symbol {
            kind: FUNCTION_INDEX_LEB,
            place: 1,
            symbol,
            addend: 0,
        })?;
    }
    Ok(())
}

/// A function that names symbols 2 and 3.
fn add_function(alloc: Global, to: &mut Functions) -> Result<(), OutOfMemory> {
    let mut operands = Operands::new(alloc);
    add_operands(&mut operands)?;
    to.push(FunctionRef {
        type_index: 0,
        span: SPAN,
        operands: operands.as_ref(),
        export_name: None,
    })
}

/// A data segment that names them too.
fn add_segment(to: &mut Segments) -> Result<(), OutOfMemory> {
    let windows = [
        reloc(MEMORY_ADDR_I32, 8, 2, 0),
        reloc(MEMORY_ADDR_I32, 12, 3, 0),
    ];
    to.push(SegmentRef {
        span: SPAN,
        name: b".data".as_slice(),
        align: 0,
        flags: 0,
        windows: &windows,
    })
}

/// Symbols 0 and 1.
fn add_inits(to: &mut Seq<InitFunc>) -> Result<(), OutOfMemory> {
    for symbol in [0, 1] {
        to.push(InitFunc {
            priority: 0,
            symbol,
        })?;
    }
    Ok(())
}

fn add_parts(alloc: Global, to: &mut Object) -> Result<(), OutOfMemory> {
    add_symbols(&mut to.symbols)?;
    add_function(alloc, &mut to.functions)?;
    add_segment(&mut to.segments)?;
    add_inits(&mut to.inits)
}

fn add_object(alloc: Global, to: &mut Seq<Object>, input: InputId) -> Result<(), OutOfMemory> {
    let mut object = nothing(alloc, input);
    add_parts(alloc, &mut object)?;
    to.push(object)
}

/// Symbol 2 is null, and the others mean nothing.
fn add_rows(to: &mut Lists<Meaning>) -> Result<(), OutOfMemory> {
    let row = [
        Meaning::Nothing,
        Meaning::Nothing,
        Meaning::Null,
        Meaning::Nothing,
    ];
    to.push(&[])?;
    to.push(&row)?;
    to.push(&row)
}

/// How many meanings an input has.
fn count(rows: &Lists<Meaning>, input: InputId) -> usize
    ensures { result ≡ length (row_of rows.now input) }
{
    match rows.get(input as usize) {
        Some(row) => row.len(),
        None => 0,
    }
}

/// Whether there is a meaning for each symbol.
fn are_meant(objects: &[Object], rows: &Lists<Meaning>) -> bool
    ensures { IsTrue result → AreMeant rows.now objects.now }
{
    for object in objects {
        if count(rows, object.input) != object.symbols.len() {
            return false;
        }
    }
    true
}

// ---- live chunks

fn add_chunk(to: &mut ChunkTable, input: InputId, kind: u8) -> Result<(), OutOfMemory> {
    let chunk = Chunk {
        input,
        kind,
        index: 0,
    };
    if to.count() < 3 && to.find(chunk).is_none() {
        to.add(chunk)?;
    }
    Ok(())
}

/// `__wasm_call_ctors`, the first object's segment and the second object's function.
fn add_chunks(to: &mut ChunkTable) -> Result<(), OutOfMemory> {
    add_chunk(to, 0, kinds::FUNCTION)?;
    add_chunk(to, 1, kinds::SEGMENT)?;
    add_chunk(to, 2, kinds::FUNCTION)
}

fn mark(bits: &MarkBits, seat: &mut MarkSeat, chunk: u32, is_live: bool)
    requires own { IsSeatOf bits.now seat.old }
    requires chunk { chunk < bits.now.chunks }
    ensures own { IsSeatOf bits.now seat.new }
    ensures width { seat.new.party.width ≡ seat.old.party.width }
{
    if is_live {
        bits.mark(seat, chunk);
    }
}

/// A set of three chunks.
fn live_of(alloc: Global, are_live: [bool; 3]) -> Result<MarkSet, OutOfMemory> {
    let (bits, mut seat) = MarkBits::new(alloc, 3, 1)?;
    mark(&bits, &mut seat, 0, are_live[0]);
    mark(&bits, &mut seat, 1, are_live[1]);
    mark(&bits, &mut seat, 2, are_live[2]);
    Ok(bits.finish(seat))
}

/// The inputs 1 and 2.
fn add_objects(alloc: Global, to: &mut Seq<Object>) -> Result<(), OutOfMemory> {
    add_object(alloc, to, 1)?;
    add_object(alloc, to, 2)
}

/// The first unresolved symbol, if there is one.
type First = Option<(InputId, u32)>;

/// The first unresolved symbol, where all that is asked holds.
fn first_of<R: Threads + Sync>(
    rt: &R,
    alloc: Global,
    objects: &[Object],
    resolution: &Resolution,
    live: &MarkSet,
    chunks: &ChunkTable,
) -> Option<First>
    requires { AreMeant resolution.now.rows objects.now }
{
    if live.chunks != chunks.count() || !inputs_rise(objects) {
        return None;
    }
    let workers = Workers::new(2)?;
    first_unresolved(rt, alloc, objects, resolution, live, chunks, workers).ok()
}

/// The first unresolved symbol of these objects, where the symbols mean this.
fn first_by_rows<R: Threads + Sync>(
    rt: &R,
    alloc: Global,
    objects: &[Object],
    live: &MarkSet,
    chunks: &ChunkTable,
) -> Option<First> {
    let mut rows = Lists::new(alloc);
    add_rows(&mut rows).ok()?;
    if !are_meant(objects, &rows) {
        return None;
    }
    let resolution = Resolution::of_rows(alloc, rows);
    first_of(rt, alloc, objects, &resolution, live, chunks)
}

/// The first unresolved symbol of these objects, where these chunks are live.
fn first_where<R: Threads + Sync>(
    rt: &R,
    alloc: Global,
    objects: &[Object],
    chunks: &ChunkTable,
    are_live: [bool; 3],
) -> Option<First> {
    let live = live_of(alloc, are_live).ok()?;
    first_by_rows(rt, alloc, objects, &live, chunks)
}

/// The same, of these chunks.
fn first_in<R: Threads + Sync>(
    rt: &R,
    alloc: Global,
    objects: &[Object],
    are_live: [bool; 3],
) -> Option<First> {
    let mut chunks = ChunkTable::new(alloc);
    add_chunks(&mut chunks).ok()?;
    first_where(rt, alloc, objects, &chunks, are_live)
}

/// The first unresolved symbol where these chunks are live.
fn told<R: Threads + Sync>(rt: &R, alloc: Global, are_live: [bool; 3]) -> Option<First> {
    let mut objects = Seq::new(alloc);
    add_objects(alloc, &mut objects).ok()?;
    first_in(rt, alloc, objects.as_slice(), are_live)
}

/// Whether the first unresolved symbol is this, where these chunks are live.
fn are_told<R: Threads + Sync>(rt: &R, alloc: Global, cases: &[([bool; 3], First)]) -> bool {
    for (are_live, first) in cases {
        if told(rt, alloc, *are_live) != Some(*first) {
            return false;
        }
    }
    true
}

#[test]
fn the_least_symbol_of_live_chunks_is_told(rt: HostRuntime) {
    let cases = [
        ([false, false, false], None),
        // a null symbol doesn't count
        ([false, true, true], Some((1, 3))),
        ([false, false, true], Some((2, 3))),
        // the init function that is defined doesn't count
        ([true, false, false], Some((1, 1))),
        ([true, true, true], Some((1, 1))),
    ];
    assert!(rt; are_told(&rt, rt.alloc(), &cases));
}
