//! Bodies of short instructions, which the scan goes past quickly: that it tells the same as reading them.
ghost use Rattle.std.specs.Prelude.{◌≤◌, length};

use crate::windows::{BASE, are, read, reloc, scanned, symbol};
use body_windows::{Mismatch, Operand, Operands, WindowFault, scan};
use reloc_section::Reloc;
use reloc_section::kinds::{
    FUNCTION_INDEX_LEB, GLOBAL_INDEX_LEB, MEMORY_ADDR_LEB, MEMORY_ADDR_SLEB, TABLE_INDEX_SLEB,
    TABLE_NUMBER_LEB, TYPE_INDEX_LEB,
};
use std::alloc::Global;
use wasm_grammar::{ReadFault, Stop};
use wasm_instr::{BodyFault, read_body};
use wl_base::{OutOfMemory, Seq};

/// A body of short forms, and of forms that are one byte too long for that, with no immediate that needs
/// a window: locals, what computes, constants, loads and stores, blocks, branches, and others.
const FORMS: [u8; 95] = [
    0x00, 0x20, 0x00, 0x21, 0x7f, 0x22, 0x80, 0x01, 0x20, 0x80, 0x80, 0x01, 0x20, 0x81, 0x80, 0x80,
    0x00, 0x45, 0xc4, 0x6a, 0x41, 0x00, 0x41, 0x7f, 0x41, 0x80, 0x01, 0x41, 0x80, 0x80, 0x01, 0x41,
    0x80, 0x80, 0x80, 0x01, 0x41, 0x80, 0x80, 0x80, 0x80, 0x00, 0x41, 0xff, 0xff, 0xff, 0xff, 0x7f,
    0x28, 0x02, 0x00, 0x3e, 0x02, 0x84, 0x01, 0x2a, 0x02, 0x80, 0x80, 0x80, 0x80, 0x00, 0x36, 0x82,
    0x00, 0x00, 0x02, 0x40, 0x0c, 0x00, 0x0b, 0x03, 0x7f, 0x0d, 0x80, 0x00, 0x04, 0x7c, 0x05, 0x0b,
    0x0b, 0x00, 0x01, 0x0f, 0x1a, 0x1b, 0x42, 0x80, 0x01, 0x3f, 0x00, 0x0e, 0x00, 0x00, 0x0b,
];

/// Calls, globals, a store to an address, and numbers between them.
const WINDOWS: [u8; 42] = [
    0x00, 0x41, 0x05, 0x10, 0x81, 0x80, 0x80, 0x80, 0x00, 0x23, 0x80, 0x80, 0x80, 0x80, 0x00, 0x41,
    0x01, 0x41, 0x90, 0x80, 0x80, 0x80, 0x00, 0x20, 0x00, 0x36, 0x02, 0x84, 0x88, 0x80, 0x80, 0x07,
    0x24, 0x80, 0x80, 0x80, 0x80, 0x00, 0x1a, 0x1a, 0x1a, 0x0b,
];

/// The types of relocations that may stand in code.
const KINDS: [u8; 7] = [
    FUNCTION_INDEX_LEB,
    TABLE_INDEX_SLEB,
    MEMORY_ADDR_LEB,
    MEMORY_ADDR_SLEB,
    TYPE_INDEX_LEB,
    GLOBAL_INDEX_LEB,
    TABLE_NUMBER_LEB,
];

/// Whether both are the same list.
fn are_same(alloc: Global, operands: &Operands, others: &Operands) -> bool {
    match others.as_ref().to_list(alloc) {
        Ok(list) => are(alloc, operands, list.as_slice()),
        Err(_) => false,
    }
}

/// Whether scanning a body tells the same operands as reading it, or the same fault of the relocations.
fn agree(alloc: Global, bytes: &[u8], relocs: &[Reloc]) -> bool
    requires { length bytes.now ≤ 1000 }
{
    match (scanned(alloc, bytes, relocs), read(alloc, bytes, relocs)) {
        (Some(Ok(first)), Some(Ok(second))) => are_same(alloc, &first, &second),
        (Some(Err(first)), Some(Err(second))) => WindowFault::from(first) == second,
        (None, None) => true,
        _ => false,
    }
}

/// Whether scanning a body and reading it stop alike.
fn stop_alike(alloc: Global, bytes: &[u8]) -> bool
    requires { length bytes.now ≤ 1000 }
{
    let mut opens = Seq::new(alloc);
    match (
        scan(alloc, &mut opens, bytes, BASE, &[]),
        read_body(alloc, bytes),
    ) {
        (Err(ReadFault::Stopped(Stop::Broken(place))), Err(BodyFault::Broken(other))) => place
            == other as usize,
        (Err(ReadFault::Stopped(Stop::Foreign(item))), Err(BodyFault::Stops(other))) => item
            == other,
        (Ok(_), Ok(_)) => true,
        _ => false,
    }
}

/// With a relocation of each type at each place.
fn agree_at_each(alloc: Global, bytes: &[u8]) -> bool
    requires { length bytes.now ≤ 200 }
{
    for place in 0..bytes.len() as u8 {
        for kind in KINDS {
            if !agree(alloc, bytes, &[reloc(kind, place)]) {
                return false;
            }
        }
    }
    true
}

#[test]
fn a_relocation_anywhere_is_met(rt: HostRuntime) {
    assert!(rt; agree_at_each(rt.alloc(), &FORMS));
    assert!(rt; agree_at_each(rt.alloc(), &WINDOWS));
}

/// Cut before each byte.
fn stop_where_cut(alloc: Global, bytes: &[u8]) -> bool
    requires { length bytes.now ≤ 200 }
{
    for len in 0..bytes.len() {
        if !stop_alike(alloc, &bytes[..len]) {
            return false;
        }
    }
    stop_alike(alloc, bytes)
}

#[test]
fn a_body_may_end_anywhere(rt: HostRuntime) {
    assert!(rt; stop_where_cut(rt.alloc(), &FORMS));
    assert!(rt; stop_where_cut(rt.alloc(), &WINDOWS));
}

/// Every byte as an opcode, with a byte behind it that is a short number, a long one, a type, or none.
fn opcodes_agree(alloc: Global, behind: u8) -> bool {
    for op in 0..=255u8 {
        let body = [
            0x00, 0x04, 0x40, op, behind, 0x00, 0x01, 0x01, 0x01, 0x05, 0x01, 0x0b, 0x0b, 0x01,
            0x01,
        ];
        if !stop_alike(alloc, &body) || !agree(alloc, &body, &[reloc(MEMORY_ADDR_SLEB, 4)]) {
            return false;
        }
    }
    true
}

#[test]
fn opcodes_are_told(rt: HostRuntime) {
    assert!(rt; opcodes_agree(rt.alloc(), 0x00));
    assert!(rt; opcodes_agree(rt.alloc(), 0x80));
    assert!(rt; opcodes_agree(rt.alloc(), 0x7f));
    assert!(rt; opcodes_agree(rt.alloc(), 0x0b));
}

/// The numbers of the short forms.
fn numbers_are_found(alloc: Global) -> bool {
    match scanned(alloc, &FORMS, &[]) {
        Some(Ok(operands)) => are(alloc, &operands, &[Operand::Number; 11]),
        _ => false,
    }
}

/// A body of this instruction, so many `nop`, and an `end`.
fn body_of(alloc: Global, instruction: &[u8], nops: u8) -> Result<Seq<u8>, OutOfMemory> {
    let mut body = Seq::new(alloc);
    body.push(0x00)?;
    body.extend_from_slice(instruction)?;
    for _ in 0..nops {
        body.push(0x01)?;
    }
    body.push(0x0b)?;
    Ok(body)
}

/// Whether a body of this instruction is scanned as it is read, at each of some places before its end.
fn ends_agree(alloc: Global, instruction: &[u8]) -> bool {
    for nops in 0..9u8 {
        let Ok(body) = body_of(alloc, instruction, nops) else {
            return false;
        };
        let holds = body.len() < 100
            && scanned(alloc, body.as_slice(), &[]).is_some()
            && agree(alloc, body.as_slice(), &[]);
        if !holds {
            return false;
        }
    }
    true
}

#[test]
fn short_forms_may_stand_at_the_end(rt: HostRuntime) {
    assert!(rt; numbers_are_found(rt.alloc()));
    assert!(rt;
        ends_agree(rt.alloc(), &[0x20, 0x00]) && ends_agree(rt.alloc(), &[0x20, 0x80, 0x01])
    );
    assert!(rt; ends_agree(rt.alloc(), &[0x6a]) && ends_agree(rt.alloc(), &[0x1a]));
    assert!(rt;
        ends_agree(rt.alloc(), &[0x41, 0x05]) && ends_agree(rt.alloc(), &[0x41, 0x80, 0x80, 0x01])
    );
    assert!(rt;
        ends_agree(rt.alloc(), &[0x28, 0x02, 0x00])
            && ends_agree(rt.alloc(), &[0x28, 0x02, 0x80, 0x80, 0x01])
    );
    assert!(rt;
        ends_agree(rt.alloc(), &[0x42, 0x05]) && ends_agree(rt.alloc(), &[0x42, 0x80, 0x80, 0x01])
    );
    assert!(rt; ends_agree(rt.alloc(), &[0x43, 0x00, 0x00, 0xc0, 0x7f]));
    assert!(rt;
        ends_agree(
            rt.alloc(),
            &[0x44, 0x0b, 0x05, 0x00, 0x00, 0x00, 0x00, 0xf0, 0xff]
        )
    );
    assert!(rt;
        ends_agree(rt.alloc(), &[0x02, 0x40, 0x0b])
            && ends_agree(rt.alloc(), &[0x04, 0x7f, 0x05, 0x0b])
    );
}

/// The operands of the windows, and of the numbers between them.
fn windows_are_found(alloc: Global) -> bool {
    let relocs = [
        reloc(FUNCTION_INDEX_LEB, 4),
        reloc(GLOBAL_INDEX_LEB, 10),
        reloc(MEMORY_ADDR_SLEB, 18),
        reloc(MEMORY_ADDR_LEB, 27),
        reloc(GLOBAL_INDEX_LEB, 33),
    ];
    let want = [
        Operand::Number,
        symbol(FUNCTION_INDEX_LEB, 4),
        symbol(GLOBAL_INDEX_LEB, 10),
        Operand::Number,
        symbol(MEMORY_ADDR_SLEB, 18),
        symbol(MEMORY_ADDR_LEB, 27),
        symbol(GLOBAL_INDEX_LEB, 33),
    ];
    match scanned(alloc, &WINDOWS, &relocs) {
        Some(Ok(operands)) => are(alloc, &operands, &want) && agree(alloc, &WINDOWS, &relocs),
        _ => false,
    }
}

/// The same, without the last, and with one that stands on a number of one byte.
fn faults_are_found(alloc: Global) -> bool {
    let relocs = [
        reloc(FUNCTION_INDEX_LEB, 4),
        reloc(GLOBAL_INDEX_LEB, 10),
        reloc(MEMORY_ADDR_SLEB, 18),
    ];
    let short = [reloc(MEMORY_ADDR_SLEB, 2), reloc(FUNCTION_INDEX_LEB, 8)];
    let bare = Mismatch::BareIndex(BASE + 33);
    let off = Mismatch::OffImmediate(BASE + 2);
    matches!(scanned(alloc, &WINDOWS, &relocs), Some(Err(fault)) if fault == bare)
        && matches!(scanned(alloc, &WINDOWS, &short), Some(Err(fault)) if fault == off)
}

#[test]
fn windows_are_met(rt: HostRuntime) {
    assert!(rt; windows_are_found(rt.alloc()));
    assert!(rt; faults_are_found(rt.alloc()));
}
