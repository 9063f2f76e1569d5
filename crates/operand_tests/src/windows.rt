//! References of bodies and the relocations that meet them, by the call over a body that was read and by the one that scans.
ghost use Rattle.std.specs.Prelude.{◌≤◌, length};

use body_windows::{Mismatch, Operand, Operands, WindowFault, scan, windows};
use reloc_section::Reloc;
use reloc_section::kinds::{
    FUNCTION_INDEX_LEB, GLOBAL_INDEX_LEB, MEMORY_ADDR_LEB, MEMORY_ADDR_REL_SLEB, MEMORY_ADDR_SLEB,
    TABLE_INDEX_REL_SLEB, TABLE_INDEX_SLEB, TABLE_NUMBER_LEB, TYPE_INDEX_LEB,
};
use std::alloc::Global;
use wasm_grammar::{ReadFault, Stop};
use wasm_instr::read_body;
use wl_base::{Item, OutOfMemory, Seq};

/// Where the bodies of these tests stand in the code section.
pub const BASE: u32 = 4;

pub fn reloc(kind: u8, place: u8) -> Reloc {
    Reloc {
        kind,
        offset: BASE + place as u32,
        index: 9,
        addend: -1,
    }
}

pub fn symbol(kind: u8, place: u8) -> Operand {
    Operand::Symbol {
        kind,
        place: place as u32,
        symbol: 9,
        addend: -1,
    }
}

fn type_ref(place: u8) -> Operand {
    Operand::TypeRef {
        place: place as u32,
        index: 9,
    }
}

/// Whether the operands are these.
pub fn are(alloc: Global, operands: &Operands, want: &[Operand]) -> bool {
    match operands.as_ref().to_list(alloc) {
        Ok(list) => list.as_slice() == want,
        Err(_) => false,
    }
}

/// What `windows` gives of the body that these bytes are.
pub fn read(alloc: Global, bytes: &[u8], relocs: &[Reloc]) -> Option<Result<Operands, WindowFault>>
    requires { length bytes.now ≤ 1000 }
{
    match read_body(alloc, bytes) {
        Ok(body) => Some(windows(alloc, &body, BASE, relocs)),
        Err(_) => None,
    }
}

/// What `scan` gives of them.
pub fn scanned(alloc: Global, bytes: &[u8], relocs: &[Reloc]) -> Option<Result<Operands, Mismatch>>
    requires { length bytes.now ≤ 1000 }
{
    let mut opens = Seq::new(alloc);
    scan(alloc, &mut opens, bytes, BASE, relocs).ok()
}

/// Whether both calls give these operands.
fn gives(alloc: Global, bytes: &[u8], relocs: &[Reloc], want: &[Operand]) -> bool
    requires { length bytes.now ≤ 1000 }
{
    match (scanned(alloc, bytes, relocs), read(alloc, bytes, relocs)) {
        (Some(Ok(first)), Some(Ok(second))) => are(alloc, &first, want)
            && are(alloc, &second, want),
        _ => false,
    }
}

/// How body and relocations disagree, by both calls.
fn mismatch(alloc: Global, bytes: &[u8], relocs: &[Reloc]) -> Option<(Mismatch, WindowFault)>
    requires { length bytes.now ≤ 1000 }
{
    match (scanned(alloc, bytes, relocs), read(alloc, bytes, relocs)) {
        (Some(Err(first)), Some(Err(second))) => Some((first, second)),
        _ => None,
    }
}

fn off(place: u32) -> Option<(Mismatch, WindowFault)> {
    Some((
        Mismatch::OffImmediate(place),
        WindowFault::OffImmediate(place),
    ))
}

fn bare(place: u32) -> Option<(Mismatch, WindowFault)> {
    Some((Mismatch::BareIndex(place), WindowFault::BareIndex(place)))
}

fn overlap(place: u32) -> Option<(Mismatch, WindowFault)> {
    Some((Mismatch::Overlap(place), WindowFault::Overlap(place)))
}

/// call 1
const CALL: [u8; 8] = [0x00, 0x10, 0x81, 0x80, 0x80, 0x80, 0x00, 0x0b];

/// i32.const, drop
const CONSTANT: [u8; 9] = [0x00, 0x41, 0x80, 0x80, 0x80, 0x80, 0x00, 0x1a, 0x0b];

/// Whether a constant may be a reference of this type.
fn is_constant(alloc: Global, kind: u8) -> bool {
    gives(alloc, &CONSTANT, &[reloc(kind, 2)], &[symbol(kind, 2)])
}

fn constants_are_found(alloc: Global) -> bool {
    gives(
        alloc,
        &CALL,
        &[reloc(FUNCTION_INDEX_LEB, 2)],
        &[symbol(0, 2)],
    ) && gives(alloc, &CONSTANT, &[], &[Operand::Number])
        && is_constant(alloc, TABLE_INDEX_SLEB)
        && is_constant(alloc, MEMORY_ADDR_SLEB)
        && is_constant(alloc, MEMORY_ADDR_REL_SLEB)
        && is_constant(alloc, TABLE_INDEX_REL_SLEB)
}

/// i32.const 0, this load, drop
fn is_load(alloc: Global, load: u8) -> bool {
    let body = [
        0x00, 0x41, 0x00, load, 0x02, 0x84, 0x88, 0x80, 0x80, 0x00, 0x1a, 0x0b,
    ];
    let want = [Operand::Number, symbol(3, 5)];
    gives(alloc, &body, &[reloc(MEMORY_ADDR_LEB, 5)], &want)
}

/// global.get, global.set
fn globals_are_found(alloc: Global) -> bool {
    let globals = [
        0x00, 0x23, 0x80, 0x80, 0x80, 0x80, 0x00, 0x24, 0x80, 0x80, 0x80, 0x80, 0x00, 0x0b,
    ];
    let relocs = [reloc(GLOBAL_INDEX_LEB, 2), reloc(GLOBAL_INDEX_LEB, 8)];
    gives(alloc, &globals, &relocs, &[symbol(7, 2), symbol(7, 8)])
}

#[test]
fn references_are_found(rt: HostRuntime) {
    assert!(rt; constants_are_found(rt.alloc()));
    // i32.load and f32.load
    assert!(rt; is_load(rt.alloc(), 0x28) && is_load(rt.alloc(), 0x2a));
    assert!(rt; globals_are_found(rt.alloc()));
}

/// i32.const 0, call_indirect of a type and this table
fn through(table: u8) -> [u8; 11] {
    [
        0x00, 0x41, 0x00, 0x11, 0x80, 0x80, 0x80, 0x80, 0x00, table, 0x0b,
    ]
}

/// The table 0 needs no window, and the table 1 and each type do.
fn short_tables_are_found(alloc: Global) -> bool {
    let relocs = [reloc(TYPE_INDEX_LEB, 4)];
    let want = [Operand::Number, type_ref(4), Operand::TableZero];
    gives(alloc, &through(0), &relocs, &want)
        && mismatch(alloc, &through(0), &[]) == bare(BASE + 4)
        && mismatch(alloc, &through(1), &relocs) == bare(BASE + 9)
}

/// A table of five bytes.
fn long_tables_are_found(alloc: Global) -> bool {
    let table = [
        0x00, 0x41, 0x00, 0x11, 0x80, 0x80, 0x80, 0x80, 0x00, 0x81, 0x80, 0x80, 0x80, 0x00, 0x0b,
    ];
    let relocs = [reloc(TYPE_INDEX_LEB, 4), reloc(TABLE_NUMBER_LEB, 9)];
    let want = [Operand::Number, type_ref(4), symbol(20, 9)];
    gives(alloc, &table, &relocs, &want)
}

/// A block with the index of a type, and one without.
fn blocks_are_found(alloc: Global) -> bool {
    let block = [
        0x00, 0x02, 0x81, 0x80, 0x80, 0x80, 0x00, 0x02, 0x40, 0x0b, 0x0b, 0x0b,
    ];
    gives(alloc, &block, &[reloc(TYPE_INDEX_LEB, 2)], &[type_ref(2)])
        && mismatch(alloc, &block, &[]) == bare(BASE + 2)
}

#[test]
fn types_and_tables_are_found(rt: HostRuntime) {
    assert!(rt; short_tables_are_found(rt.alloc()));
    assert!(rt; long_tables_are_found(rt.alloc()));
    assert!(rt; blocks_are_found(rt.alloc()));
}

/// Without a window, and with one on an immediate of one byte.
fn short_calls_disagree(alloc: Global) -> bool {
    let short = [0x00, 0x10, 0x00, 0x0b];
    mismatch(alloc, &short, &[]) == bare(BASE + 2)
        && mismatch(alloc, &short, &[reloc(FUNCTION_INDEX_LEB, 2)]) == off(BASE + 2)
}

/// Another type, another place, a place behind.
fn calls_disagree(alloc: Global) -> bool {
    let behind = [reloc(FUNCTION_INDEX_LEB, 2), reloc(FUNCTION_INDEX_LEB, 8)];
    mismatch(alloc, &CALL, &[reloc(GLOBAL_INDEX_LEB, 2)]) == off(BASE + 2)
        && mismatch(alloc, &CALL, &[reloc(FUNCTION_INDEX_LEB, 3)]) == off(BASE + 3)
        && mismatch(alloc, &CALL, &behind) == off(BASE + 8)
}

/// Windows that overlap are told before all else, and an off window before a bare index.
fn faults_have_an_order(alloc: Global) -> bool {
    let near = [reloc(FUNCTION_INDEX_LEB, 2), reloc(FUNCTION_INDEX_LEB, 6)];
    let falling = [reloc(FUNCTION_INDEX_LEB, 2), reloc(FUNCTION_INDEX_LEB, 1)];
    let both = [0x00, 0x10, 0x00, 0x41, 0x00, 0x1a, 0x0b];
    mismatch(alloc, &CALL, &near) == overlap(BASE + 6)
        && mismatch(alloc, &CALL, &falling) == overlap(BASE + 1)
        && mismatch(alloc, &both, &[reloc(MEMORY_ADDR_SLEB, 4)]) == off(BASE + 4)
}

#[test]
fn disagreements_are_told(rt: HostRuntime) {
    assert!(rt; short_calls_disagree(rt.alloc()));
    assert!(rt; calls_disagree(rt.alloc()));
    assert!(rt; faults_have_an_order(rt.alloc()));
}

/// How a body stops the scan.
fn stop_of(
    alloc: Global,
    opens: &mut Seq<bool>,
    bytes: &[u8],
    relocs: &[Reloc],
) -> Option<ReadFault>
    requires { length bytes.now ≤ 1000 }
{
    match scan(alloc, opens, bytes, BASE, relocs) {
        Ok(_) => None,
        Err(fault) => Some(fault),
    }
}

/// A vector instruction, a second body with the same list of blocks, and one that is cut.
fn bodies_stop(alloc: Global, opens: &mut Seq<bool>) -> bool {
    let relocs = [reloc(FUNCTION_INDEX_LEB, 2), reloc(FUNCTION_INDEX_LEB, 3)];
    let foreign = Stop::Foreign(Item::Opcode { byte: 0xfd, sub: 0 });
    let cut = Stop::Broken(2);
    stop_of(alloc, opens, &[0x00, 0x02, 0x40, 0xfd, 0x0b], &relocs)
        == Some(ReadFault::Stopped(foreign))
        && stop_of(alloc, opens, &[0x00, 0x0b], &[]).is_none()
        && stop_of(alloc, opens, &[0x00, 0x10, 0x80], &relocs) == Some(ReadFault::Stopped(cut))
}

#[test]
fn faults_of_the_body_come_first(rt: HostRuntime) {
    let mut opens = Seq::new(rt.alloc());
    let holds = bodies_stop(rt.alloc(), &mut opens);
    assert!(rt; holds);
}

/// Whether these are the references, each with so many numbers before it.
fn has_references(operands: &Operands, want: &[(u16, Operand)]) -> bool {
    let references = operands.as_ref().references;
    references.len() == want.len()
        && references.iter().zip(want).all(|(reference, (numbers, operand))| {
            reference.numbers() == *numbers && reference.operand() == *operand
        })
}

fn push_each(operands: &mut Operands, list: &[Operand]) -> Result<(), OutOfMemory> {
    for operand in list {
        operands.push(*operand)?;
    }
    Ok(())
}

fn are_counted(alloc: Global, operands: &mut Operands) -> bool {
    let list = [
        Operand::Number,
        Operand::Number,
        type_ref(7),
        Operand::TableZero,
        Operand::Number,
    ];
    are(alloc, operands, &[])
        && push_each(operands, &list).is_ok()
        && are(alloc, operands, &list)
        && has_references(operands, &[(2, type_ref(7)), (0, Operand::TableZero)])
}

#[test]
fn operands_are_counted(rt: HostRuntime) {
    let mut operands = Operands::new(rt.alloc());
    let holds = are_counted(rt.alloc(), &mut operands);
    assert!(rt; holds);
}
