//! Sections `linking`, read whole, and their items: what is told of spelled bytes, and the first fault of others.

use linking_section::{
    EXPLICIT_NAME, EXPORTED, HIDDEN, InitFunc, LOCAL, Linking, LinkingFault, Member, NO_STRIP,
    RETAIN, STRINGS, Symbol, SymbolKind, UNDEFINED, WEAK, group_at, linking_at, read, segment_at,
    symbol_at,
};
use std::alloc::Global;
use test_kit::{group, member, segment_info, silent, symbol};
use wasm_grammar::{Form, ReadFault, Stop, vector_at};
use wl_base::{Item, Name, OutOfMemory, Seq};

/// A function's symbol with this name.
fn function(
    alloc: Global,
    flags: u32,
    text: Option<&str>,
    index: u32,
) -> Result<Symbol, OutOfMemory> {
    symbol(alloc, SymbolKind::Function, flags, text, index)
}

/// Whether this is the payload of a section that says what is wanted.
fn is_read(alloc: Global, payload: &[u8], want: &Linking) -> bool {
    match read(alloc, payload) {
        Err(_) => false,
        Ok(linking) => linking == *want,
    }
}

/// Whether this is the payload of a section that says what was made.
fn says(alloc: Global, payload: &[u8], made: Result<Linking, OutOfMemory>) -> bool {
    match made {
        Err(_) => false,
        Ok(want) => is_read(alloc, payload, &want),
    }
}

fn add_functions(alloc: Global, symbols: &mut Seq<Symbol>) -> Result<(), OutOfMemory> {
    symbols.push(function(alloc, 0, Some("f"), 0)?)?;
    symbols.push(function(alloc, 0, Some("g"), 1)?)
}

/// Two functions.
fn two_symbols(alloc: Global) -> Result<Linking, OutOfMemory> {
    let mut linking = silent(alloc);
    add_functions(alloc, &mut linking.symbols)?;
    Ok(linking)
}

#[test]
fn the_symbols_of_a_small_object_are_read(rt: HostRuntime) {
    let alloc = rt.alloc();
    let payload = [
        0x02, 0x08, 0x0b, 0x02, 0x00, 0x00, 0x00, 0x01, 0x66, 0x00, 0x00, 0x01, 0x01, 0x67,
    ];
    assert!(rt; says(alloc, &payload, two_symbols(alloc)));
}

fn add_one_of_each(alloc: Global, linking: &mut Linking) -> Result<(), OutOfMemory> {
    let members = [member(1, 3), member(0, 2), member(5, 130)];
    let init = InitFunc {
        priority: 65535,
        symbol: 0,
    };
    linking
        .segments
        .push(segment_info(alloc, ".data", 2, RETAIN)?)?;
    linking.inits.push(init)?;
    linking.groups.push(group(alloc, "w", &members)?)?;
    linking.symbols.push(function(alloc, UNDEFINED, None, 3)?)
}

/// A segment, an init function, a group and a symbol.
fn one_of_each(alloc: Global) -> Result<Linking, OutOfMemory> {
    let mut linking = silent(alloc);
    add_one_of_each(alloc, &mut linking)?;
    Ok(linking)
}

#[test]
fn subsections_come_in_any_order(rt: HostRuntime) {
    let alloc = rt.alloc();
    let payload = [
        0x02, 0x08, 0x04, 0x01, 0x00, 0x10, 0x03, // symbols
        0x09, 0x02, 0x05, 0x05, // an unknown one
        0x07, 0x0c, 0x01, 0x01, 0x77, 0x00, 0x03, 0x01, 0x03, 0x00, 0x02, 0x05, 0x82, 0x01, // groups
        0x09, 0x00, // an unknown one again
        0x06, 0x05, 0x01, 0xff, 0xff, 0x03, 0x00, // init functions
        0x05, 0x09, 0x01, 0x05, 0x2e, 0x64, 0x61, 0x74, 0x61, 0x02, 0x04, // segment info
    ];
    assert!(rt; says(alloc, &payload, one_of_each(alloc)));
}

/// Whether each of these is the payload of a section that says nothing.
fn are_silent(alloc: Global, payloads: &[&[u8]]) -> bool {
    for payload in payloads {
        if !says(alloc, payload, Ok(silent(alloc))) {
            return false;
        }
    }
    true
}

#[test]
fn empty_lists_are_read(rt: HostRuntime) {
    let payloads = [
        [2].as_slice(),
        &[0x82, 0x00],
        &[2, 8, 1, 0],
        &[2, 5, 1, 0, 7, 1, 0, 6, 1, 0, 8, 0x81, 0x00, 0],
        &[2, 0, 1, 0xff, 1, 0, 9, 0, 255, 0],
    ];
    assert!(rt; are_silent(rt.alloc(), &payloads));
}

fn is_named(name: &Option<Name>, text: Option<&str>) -> bool {
    match (name, text) {
        (Some(name), Some(text)) => name.as_slice() == text.as_bytes(),
        (None, None) => true,
        _ => false,
    }
}

/// Whether a symbol has this kind, flags and name, and this index, offset and size.
fn has(
    symbol: &Symbol,
    (kind, flags, text): (SymbolKind, u32, Option<&str>),
    places: [u32; 3],
) -> bool {
    (symbol.kind, symbol.flags) == (kind, flags)
        && is_named(&symbol.name, text)
        && [symbol.index, symbol.offset, symbol.size] == places
}

/// Whether the symbol at the front is such a one, with these bytes after it.
fn symbol_is(
    alloc: Global,
    bytes: &[u8],
    parts: (SymbolKind, u32, Option<&str>),
    places: [u32; 3],
    after: &[u8],
) -> bool {
    match symbol_at(alloc, 10, bytes) {
        Err(_) => false,
        Ok((symbol, rest)) => has(&symbol, parts, places) && rest == after,
    }
}

fn plain_symbols_are_read(alloc: Global) -> bool {
    let nothing = [].as_slice();
    let nine = [9].as_slice();
    let global = (SymbolKind::GlobalVar, 0x14, None);
    let table = (SymbolKind::Table, 0x50, Some("x"));
    let section = (SymbolKind::Section, 0x12, None);
    symbol_is(alloc, &[2, 0x14, 0x82, 0x01], global, [130, 0, 0], nothing)
        && symbol_is(alloc, &[5, 0x50, 0, 1, 0x78, 9], table, [0, 0, 0], nine)
        && symbol_is(alloc, &[3, 0x12, 4, 9], section, [4, 0, 0], nine)
}

fn functions_and_data_are_read(alloc: Global) -> bool {
    let nothing = [].as_slice();
    let nine = [9].as_slice();
    let undefined = (SymbolKind::Datum, 0x11, Some("d"));
    let datum = (SymbolKind::Datum, 0x86, Some(""));
    let placed = [1, 0x86, 0x01, 0, 1, 8, 0xac, 0x02, 9];
    let function = (SymbolKind::Function, 0xf6, Some("é"));
    let named = [0, 0xf6, 0x01, 7, 2, 0xc3, 0xa9];
    symbol_is(alloc, &[1, 0x11, 1, 0x64, 9], undefined, [0, 0, 0], nine)
        && symbol_is(alloc, &placed, datum, [1, 8, 300], nine)
        && symbol_is(alloc, &named, function, [7, 0, 0], nothing)
}

#[test]
fn symbols_are_read_by_their_kinds(rt: HostRuntime) {
    assert!(rt; plain_symbols_are_read(rt.alloc()));
    assert!(rt; functions_and_data_are_read(rt.alloc()));
}

/// The fault of a payload that isn't that of a section.
fn fault_of(alloc: Global, payload: &[u8]) -> Option<LinkingFault> {
    match read(alloc, payload) {
        Ok(_) => None,
        Err(fault) => Some(fault),
    }
}

/// The same, with its place.
fn placed_fault_of(alloc: Global, payload: &[u8]) -> Option<ReadFault> {
    match linking_at(alloc, payload.len(), payload) {
        Ok(_) => None,
        Err(fault) => Some(fault),
    }
}

/// Whether each of these payloads has this item, which isn't linked.
fn are_foreign(alloc: Global, cases: &[(&[u8], Item)]) -> bool {
    for (payload, item) in cases {
        if fault_of(alloc, payload) != Some(LinkingFault::Foreign(*item)) {
            return false;
        }
    }
    true
}

/// Whether each of these payloads is broken at this place of it.
fn are_broken(alloc: Global, cases: &[(&[u8], usize)]) -> bool {
    for (payload, place) in cases {
        let placed = Some(ReadFault::Stopped(Stop::Broken(*place)));
        if placed_fault_of(alloc, payload) != placed
            || fault_of(alloc, payload) != Some(LinkingFault::NotLinking)
        {
            return false;
        }
    }
    true
}

#[test]
fn foreign_items_are_named(rt: HostRuntime) {
    let cases = [
        ([0].as_slice(), Item::LinkingVersion(0)),
        (&[1, 8, 0x80], Item::LinkingVersion(1)),
        (&[0x83, 0x00, 0x80], Item::LinkingVersion(3)),
        (&[2, 8, 3, 1, 4, 0x80], Item::TagSymbol),
        (&[2, 8, 4, 1, 0, 0x80, 0x02], Item::SymbolFlags(0x100)),
        (&[2, 8, 4, 1, 1, 0x80, 0x04], Item::SymbolFlags(0x200)),
        (&[2, 8, 4, 1, 2, 0x80, 0x08], Item::SymbolFlags(0x400)),
        (&[2, 8, 3, 1, 3, 0x08], Item::SymbolFlags(8)),
        (&[2, 8, 3, 1, 5, 0x03], Item::SymbolFlags(3)),
        (
            &[2, 8, 7, 1, 0, 0xff, 0xff, 0xff, 0xff, 0x0f],
            Item::SymbolFlags(u32::MAX),
        ),
        (&[2, 5, 4, 1, 0, 0, 2], Item::SegmentFlags(2)),
        (&[2, 5, 4, 1, 0, 0, 8], Item::SegmentFlags(8)),
        (&[2, 5, 5, 2, 0, 0, 6, 0x80], Item::SegmentFlags(6)),
    ];
    assert!(rt; are_foreign(rt.alloc(), &cases));
}

#[test]
fn broken_payloads_have_places(rt: HostRuntime) {
    let cases = [
        ([].as_slice(), 0),
        (&[0x80], 0),
        (&[2, 8], 2),
        (&[2, 8, 2, 0], 2),
        (&[2, 8, 2, 0, 9], 4),
        (&[2, 9, 3, 0, 9], 2),
        (&[2, 8, 1, 1], 4),
        (&[2, 8, 2, 1, 6, 0], 4),
        (&[2, 8, 2, 1, 0xff], 4),
        (&[2, 8, 4, 1, 0, 0, 0], 7),
        (&[2, 8, 6, 1, 0, 0, 0, 2, 0x61], 9),
        (&[2, 8, 6, 1, 0, 0, 0, 1, 0xff], 7),
        (&[2, 8, 5, 1, 1, 0, 0, 1], 8),
        (&[2, 8, 5, 1, 0, 0x10, 3, 1], 7),
        (&[2, 5, 3, 1, 0, 0], 6),
        (&[2, 6, 2, 1, 0], 5),
        (&[2, 7, 4, 1, 0, 1, 0], 5),
        (&[2, 7, 6, 1, 0, 0, 1, 2, 0], 7),
        (&[2, 7, 6, 1, 0, 0, 1, 6, 0], 7),
        (&[2, 8, 1, 0, 8, 1, 0], 4),
        (&[2, 5, 1, 0, 9, 0, 5], 6),
        (&[2, 6, 1, 0, 6], 4),
        (&[2, 7, 1, 0, 7], 4),
    ];
    assert!(rt; are_broken(rt.alloc(), &cases));
}

/// Whether a symbol is weak, local, hidden, undefined, exported, named though a reference, and kept.
fn marks(symbol: &Symbol) -> [bool; 7] {
    [
        symbol.is_weak(),
        symbol.is_local(),
        symbol.is_hidden(),
        symbol.is_undefined(),
        symbol.is_exported(),
        symbol.is_explicit(),
        symbol.is_no_strip(),
    ]
}

/// Whether it is a definition that others see, one that they don't, and a strong reference.
fn roles(symbol: &Symbol) -> [bool; 3] {
    [
        symbol.is_definition(),
        symbol.is_local_definition(),
        symbol.is_strong_reference(),
    ]
}

/// What these flags say of a function `f`.
fn said(alloc: Global, flags: u32) -> Result<([bool; 7], [bool; 3]), OutOfMemory> {
    let symbol = function(alloc, flags, Some("f"), 0)?;
    Ok((marks(&symbol), roles(&symbol)))
}

/// Whether each of these flags says so.
fn are_said(alloc: Global, cases: &[(u32, [bool; 7], [bool; 3])]) -> bool {
    for (flags, marks, roles) in cases {
        if said(alloc, *flags) != Ok((*marks, *roles)) {
            return false;
        }
    }
    true
}

#[test]
fn flags_say_what_a_symbol_is(rt: HostRuntime) {
    let cases = [
        (
            WEAK | HIDDEN,
            [true, false, true, false, false, false, false],
            [true, false, false],
        ),
        (
            LOCAL | NO_STRIP,
            [false, true, false, false, false, false, true],
            [false, true, false],
        ),
        (
            UNDEFINED | EXPLICIT_NAME | EXPORTED,
            [false, false, false, true, true, true, false],
            [false, false, true],
        ),
        (
            UNDEFINED | EXPLICIT_NAME | WEAK,
            [true, false, false, true, false, true, false],
            [false, false, false],
        ),
    ];
    let codes = (SymbolKind::Section.code(), SymbolKind::Table.code());
    assert!(rt; are_said(rt.alloc(), &cases) && codes == (3, 5));
}

/// Whether the list at the front has just these members, with these bytes after it.
fn members_are(alloc: Global, bytes: &[u8], want: &[Member], after: &[u8]) -> bool {
    match vector_at::<Member>(alloc, 10, bytes) {
        Err(_) => false,
        Ok((members, rest)) => members.as_slice() == want && rest == after,
    }
}

/// The same of init functions.
fn inits_are(alloc: Global, bytes: &[u8], want: &[InitFunc], after: &[u8]) -> bool {
    match Seq::<InitFunc>::form_at(alloc, 10, bytes) {
        Err(_) => false,
        Ok((inits, rest)) => inits.as_slice() == want && rest == after,
    }
}

/// Whether the segment's info at the front has this name, alignment and flags, with these bytes
/// after it.
fn info_is(
    alloc: Global,
    bytes: &[u8],
    (text, align, flags): (&str, u32, u32),
    after: &[u8],
) -> bool {
    match segment_at(alloc, 10, bytes) {
        Err(_) => false,
        Ok((info, rest)) => {
            info.name.as_slice() == text.as_bytes()
                && (info.align, info.flags) == (align, flags)
                && rest == after
        }
    }
}

/// Whether the group at the front has this name and no members, with these bytes after it.
fn group_is(alloc: Global, bytes: &[u8], text: &str, after: &[u8]) -> bool {
    match group_at(alloc, 10, bytes) {
        Err(_) => false,
        Ok((group, rest)) => {
            group.name.as_slice() == text.as_bytes()
                && group.members.as_slice().is_empty()
                && rest == after
        }
    }
}

fn items_are_read(alloc: Global) -> bool {
    let member = Member { kind: 5, index: 2 };
    let init = InitFunc {
        priority: 1,
        symbol: 2,
    };
    let info = ("s", 3, STRINGS);
    members_are(alloc, &[1, 5, 2, 9], &[member], &[9])
        && inits_are(alloc, &[1, 1, 2], &[init], &[])
        && info_is(alloc, &[1, 0x73, 3, 1, 9], info, &[9])
        && group_is(alloc, &[1, 0x67, 0x80, 0x00, 0], "g", &[])
}

#[test]
fn items_stand_in_vectors(rt: HostRuntime) {
    assert!(rt; items_are_read(rt.alloc()));
}
