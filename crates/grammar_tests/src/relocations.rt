//! Entries and sections of relocations, read whole, and their types.

use reloc_section::kinds::{has_addend, is_read};
use reloc_section::{Reloc, RelocFault, RelocSection, kinds, read, reloc_at, relocs_at};
use std::alloc::Global;
use test_kit::reloc;
use wasm_grammar::{Form, ReadFault, Stop, vector_at};
use wl_base::{Item, Seq};

const NOTHING: &[u8] = &[];

const NINE: &[u8] = &[9];

/// Whether each of these types is read, or none, and has an addend, or hasn't.
fn are_known(types: &[u8], read: bool, addend: bool) -> bool {
    for kind in types {
        if is_read(*kind) != read || has_addend(*kind) != addend {
            return false;
        }
    }
    true
}

#[test]
fn types_are_known_by_their_numbers(rt: HostRuntime) {
    assert!(rt; are_known(&[0, 1, 2, 6, 7, 12, 13, 20], true, false));
    assert!(rt; are_known(&[3, 4, 5, 8, 9, 11], true, true));
    let others = [
        10, 14, 15, 16, 17, 18, 19, 21, 22, 23, 24, 25, 26, 27, 128, 255,
    ];
    assert!(rt; are_known(&others, false, false));
}

fn entries_have_ends() -> bool {
    reloc_at(10, &[0, 4, 1]) == Ok((reloc(0, 4, 1, 0), NOTHING))
        && reloc_at(10, &[0, 4, 1, 9]) == Ok((reloc(0, 4, 1, 0), NINE))
        && reloc_at(10, &[3, 0x80, 0x01, 5, 0x7c]) == Ok((reloc(3, 128, 5, -4), NOTHING))
        && reloc_at(10, &[4, 1, 2, 3]) == Ok((reloc(4, 1, 2, 3), NOTHING))
        && reloc_at(10, &[5, 1, 2, 0x3f, 9]) == Ok((reloc(5, 1, 2, 63), NINE))
        && reloc_at(10, &[8, 1, 2, 0xc0, 0x00]) == Ok((reloc(8, 1, 2, 64), NOTHING))
        && reloc_at(10, &[9, 1, 2, 0]) == Ok((reloc(9, 1, 2, 0), NOTHING))
        && reloc_at(10, &[11, 1, 2, 0x7f]) == Ok((reloc(11, 1, 2, -1), NOTHING))
        && reloc_at(10, &[20, 0, 0]) == Ok((reloc(20, 0, 0, 0), NOTHING))
}

/// Eight bytes behind an entry.
const EIGHT: &[u8] = &[9; 8];

/// Entries whose numbers have one to five bytes, with more behind them than any entry has.
fn entries_have_more_behind() -> bool {
    let foreign = Err(Stop::Foreign(Item::RelocType(10)));
    reloc_at(30, &[7, 4, 1, 9, 9, 9, 9, 9, 9, 9, 9]) == Ok((reloc(7, 4, 1, 0), EIGHT))
        && reloc_at(30, &[3, 0x80, 1, 5, 0x7c, 9, 9, 9, 9, 9, 9, 9, 9])
            == Ok((reloc(3, 128, 5, -4), EIGHT))
        && reloc_at(
            30,
            &[4, 0x81, 0x80, 4, 0x82, 1, 0xc0, 0, 9, 9, 9, 9, 9, 9, 9, 9],
        ) == Ok((reloc(4, 65537, 130, 64), EIGHT))
        && reloc_at(
            30,
            &[
                0, 0x80, 0x80, 0x80, 1, 0xff, 0xff, 0xff, 0x7f, 9, 9, 9, 9, 9, 9, 9, 9,
            ],
        ) == Ok((reloc(0, 1 << 21, (1 << 28) - 1, 0), EIGHT))
        && reloc_at(
            30,
            &[0, 0x80, 0x80, 0x80, 0x80, 1, 1, 9, 9, 9, 9, 9, 9, 9, 9],
        ) == Ok((reloc(0, 1 << 28, 1, 0), EIGHT))
        && reloc_at(30, &[10, 4, 1, 9, 9, 9, 9, 9, 9, 9, 9]) == foreign
}

fn entries_are_refused() -> bool {
    let foreign = |kind| Err(Stop::Foreign(Item::RelocType(kind)));
    reloc_at(10, &[10, 4, 1]) == foreign(10)
        && reloc_at(10, &[14]) == foreign(14)
        && reloc_at(10, &[21, 0x80]) == foreign(21)
        && reloc_at(10, &[255]) == foreign(255)
        && reloc_at(10, NOTHING) == Err(Stop::Broken(10))
        && reloc_at(10, &[0]) == Err(Stop::Broken(10))
        && reloc_at(10, &[0, 4, 0x80]) == Err(Stop::Broken(9))
        && reloc_at(10, &[4, 1, 2]) == Err(Stop::Broken(10))
        && reloc_at(10, &[4, 1, 2, 0x80]) == Err(Stop::Broken(9))
}

#[test]
fn entries_are_read_with_places(rt: HostRuntime) {
    assert!(rt; entries_have_ends());
    assert!(rt; entries_have_more_behind());
    assert!(rt; entries_are_refused());
}

/// The entry of a call at byte 4 to the function that symbol 1 names.
const CALL: Reloc = Reloc {
    kind: kinds::FUNCTION_INDEX_LEB,
    offset: 4,
    index: 1,
    addend: 0,
};

const ADDRESS: Reloc = Reloc {
    kind: kinds::MEMORY_ADDR_SLEB,
    offset: 8,
    index: 2,
    addend: -4,
};

/// Whether the payload is that of a section with this target and these entries.
fn is_payload(alloc: Global, payload: &[u8], target: u32, entries: &[Reloc]) -> bool {
    match read(alloc, payload) {
        Ok(found) => found.target == target && found.entries.as_slice() == entries,
        Err(_) => false,
    }
}

#[test]
fn payloads_are_read_whole(rt: HostRuntime) {
    let alloc = rt.alloc();
    assert!(rt; is_payload(alloc, &[2, 1, 0, 4, 1], 2, &[CALL]));
    assert!(rt; is_payload(alloc, &[3, 2, 0, 4, 1, 4, 8, 2, 0x7c], 3, &[CALL, ADDRESS]));
    assert!(rt; is_payload(alloc, &[0x85, 0x00, 0x80, 0x00], 5, &[]));
}

/// The fault of a payload that isn't that of a section.
fn fault_of(alloc: Global, payload: &[u8]) -> Option<RelocFault> {
    match read(alloc, payload) {
        Ok(_) => None,
        Err(fault) => Some(fault),
    }
}

fn payloads_are_broken(alloc: Global) -> bool {
    let broken = Some(RelocFault::NotReloc);
    fault_of(alloc, NOTHING) == broken
        && fault_of(alloc, &[2]) == broken
        && fault_of(alloc, &[2, 1]) == broken
        && fault_of(alloc, &[2, 1, 0, 4]) == broken
        && fault_of(alloc, &[2, 0, 0]) == broken
        && fault_of(alloc, &[2, 1, 0, 4, 1, 0]) == broken
        && fault_of(alloc, &[2, 2, 0, 4, 0x80, 10]) == broken
        && fault_of(alloc, &[2, 0xff, 0xff, 0xff, 0xff, 0x0f]) == broken
}

fn payloads_are_foreign(alloc: Global) -> bool {
    fault_of(alloc, &[2, 1, 10]) == Some(RelocFault::ForeignType(10))
        && fault_of(alloc, &[2, 2, 0, 4, 1, 19, 0x80]) == Some(RelocFault::ForeignType(19))
}

/// The same, with its place.
fn placed_fault_of(alloc: Global, payload: &[u8]) -> Option<ReadFault> {
    match relocs_at(alloc, 10, payload) {
        Ok(_) => None,
        Err(fault) => Some(fault),
    }
}

fn faults_have_places(alloc: Global) -> bool {
    let left_over = ReadFault::Stopped(Stop::Broken(9));
    let foreign = ReadFault::Stopped(Stop::Foreign(Item::RelocType(10)));
    placed_fault_of(alloc, &[2, 0, 0]) == Some(left_over)
        && placed_fault_of(alloc, &[2, 1, 10]) == Some(foreign)
}

#[test]
fn other_payloads_are_refused(rt: HostRuntime) {
    assert!(rt; payloads_are_broken(rt.alloc()));
    assert!(rt; payloads_are_foreign(rt.alloc()));
    assert!(rt; faults_have_places(rt.alloc()));
}

/// Whether the vector at the front has the call alone, and 9 behind it.
fn is_vector(alloc: Global, bytes: &[u8]) -> bool {
    match vector_at::<Reloc>(alloc, 10, bytes) {
        Ok((found, rest)) => found.as_slice() == [CALL].as_slice() && rest == NINE,
        Err(_) => false,
    }
}

/// Whether the section at the front has the target 2 and the call alone, and 9 behind it.
fn is_section(alloc: Global, bytes: &[u8]) -> bool {
    match RelocSection::form_at(alloc, 10, bytes) {
        Ok((found, rest)) => {
            found.target == 2 && found.entries.as_slice() == [CALL].as_slice() && rest == NINE
        }
        Err(_) => false,
    }
}

fn section_of_call(alloc: Global) -> Option<RelocSection> {
    let entries = Seq::from_slice(alloc, &[CALL]).ok()?;
    Some(RelocSection { target: 2, entries })
}

#[test]
fn entries_and_sections_are_items_of_vectors(rt: HostRuntime) {
    let alloc = rt.alloc();
    assert!(rt; is_vector(alloc, &[1, 0, 4, 1, 9]));
    assert!(rt; is_section(alloc, &[2, 1, 0, 4, 1, 9]));
    assert!(rt; CALL == CALL && section_of_call(alloc) == section_of_call(alloc));
}
