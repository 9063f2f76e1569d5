//! Objects that are refused: an item that isn't linked, the first rule that is broken, and where bytes are cut or broken.

use object_file::{ObjectError, read_object};
use std::alloc::Global;
use test_kit::{calling_object, part_of_cut};
use wl_base::{Fault, Item, Part};

fn refusal(error: ObjectError) -> Option<Fault> {
    match error {
        ObjectError::Refused(fault) => Some(fault),
        ObjectError::OutOfMemory => None,
    }
}

/// The fault of bytes that are no object.
fn fault_of(alloc: Global, bytes: &[u8]) -> Option<Fault> {
    match read_object(alloc, 1, bytes) {
        Ok(_) => None,
        Err(error) => refusal(error),
    }
}

/// The fault of an object with an item that isn't linked.
fn foreign(item: Item) -> Option<Fault> {
    Some(Fault::Unsupported { input: 1, item })
}

/// The fault of an object that is broken here.
fn broken(part: Part) -> Option<Fault> {
    Some(Fault::Malformed { input: 1, part })
}

/// Whether each of these objects has this item, which isn't linked.
fn are_foreign(alloc: Global, cases: &[(&[u8], Item)]) -> bool {
    for (bytes, item) in cases {
        if fault_of(alloc, bytes) != foreign(*item) {
            return false;
        }
    }
    true
}

/// Whether this is the first rule that each of these objects breaks.
fn break_rule(alloc: Global, rule: u8, objects: &[&[u8]]) -> bool {
    for bytes in objects {
        if fault_of(alloc, bytes) != broken(Part::Cross(rule)) {
            return false;
        }
    }
    true
}

fn foreign_sections(alloc: Global) -> bool {
    are_foreign(
        alloc,
        &[
            // a tag section
            (b"\0asm\x01\0\0\0\x0d\0".as_slice(), Item::TagSection),
            // a start section
            (b"\0asm\x01\0\0\0\x08\0".as_slice(), Item::StartSection),
            // a defined memory
            (
                b"\0asm\x01\0\0\0\x05\x03\x01\0\x01".as_slice(),
                Item::DefinedMemory,
            ),
            // a defined table
            (
                b"\0asm\x01\0\0\0\x04\x04\x01p\0\0".as_slice(),
                Item::DefinedTable,
            ),
            // a shared module
            (
                b"\0asm\x01\0\0\0\0\x0a\x08dylink.0\xff".as_slice(),
                Item::SharedModule,
            ),
        ],
    )
}

fn foreign_imports(alloc: Global) -> bool {
    are_foreign(
        alloc,
        &[
            // a second memory
            (
                b"\0asm\x01\0\0\0\x02\x12\x02\x03env\x01m\x02\0\x01\x03env\x01n\x02\xff".as_slice(),
                Item::MoreMemories,
            ),
            // another table
            (
                b"\0asm\x01\0\0\0\x02\x0b\x01\x03env\x03tab\x01\xff".as_slice(),
                Item::OtherTable,
            ),
            // a second table
            (
                b"\0asm\x01\0\0\0\x02E\x02\x03env\x19__indirect_function_table\x01p\0\0\x03env\x19__indirect_function_table\x01p\0\0".as_slice(),
                Item::OtherTable,
            ),
            // a table of externref
            (
                b"\0asm\x01\0\0\0\x02!\x01\x03env\x19__indirect_function_table\x01o".as_slice(),
                Item::OtherTable,
            ),
            // an imported tag
            (
                b"\0asm\x01\0\0\0\x02\x08\x01\x03env\x01t\x04".as_slice(),
                Item::TagImport,
            ),
            // limits of another form
            (
                b"\0asm\x01\0\0\0\x02\x09\x01\x03env\x01m\x02\x03".as_slice(),
                Item::LimitsFlag(3),
            ),
        ],
    )
}

fn foreign_types_and_values(alloc: Global) -> bool {
    are_foreign(
        alloc,
        &[
            // a vector type
            (
                b"\0asm\x01\0\0\0\x01\x05\x01`\x01{\0".as_slice(),
                Item::ValueType(123),
            ),
            // a value type before a broken one
            (
                b"\0asm\x01\0\0\0\x01\x05\x01`\x02{\x01".as_slice(),
                Item::ValueType(123),
            ),
            // the value of a global
            (
                b"\0asm\x01\0\0\0\x06\x06\x01\x7f\0#\0\x0b".as_slice(),
                Item::ConstExpr(0x23),
            ),
            // a longer expression
            (
                b"\0asm\x01\0\0\0\x06\x06\x01\x7f\0A\0A".as_slice(),
                Item::ConstExpr(0x41),
            ),
        ],
    )
}

fn foreign_segments_and_opcodes(alloc: Global) -> bool {
    are_foreign(
        alloc,
        &[
            // a passive segment
            (
                b"\0asm\x01\0\0\0\x0b\x03\x01\x01\0".as_slice(),
                Item::PassiveSegment,
            ),
            // a segment of another form
            (
                b"\0asm\x01\0\0\0\x09\x02\x01\x03".as_slice(),
                Item::SegmentForm(3),
            ),
            // an opcode that isn't carried
            (
                b"\0asm\x01\0\0\0\x01\x04\x01`\0\0\x03\x02\x01\0\x0a\x07\x01\x05\0\xfd\x0c\0\x0b".as_slice(),
                Item::Opcode { byte: 253, sub: 0 },
            ),
            // a number behind FC
            (
                b"\0asm\x01\0\0\0\x01\x04\x01`\0\0\x03\x02\x01\0\x0a\x08\x01\x06\0\xfc\x08\0\0\x0b".as_slice(),
                Item::Opcode { byte: 252, sub: 8 },
            ),
        ],
    )
}

fn foreign_metadata(alloc: Global) -> bool {
    are_foreign(
        alloc,
        &[
            // another version of linking
            (
                b"\0asm\x01\0\0\0\0\x09\x07linking\x01".as_slice(),
                Item::LinkingVersion(1),
            ),
            // a tag symbol
            (
                b"\0asm\x01\0\0\0\0\x0e\x07linking\x02\x08\x03\x01\x04\0".as_slice(),
                Item::TagSymbol,
            ),
            // a weak local symbol
            (
                b"\0asm\x01\0\0\0\0\x11\x07linking\x02\x08\x06\x01\0\x03\0\x01f".as_slice(),
                Item::SymbolFlags(3),
            ),
            // a segment of thread-local data
            (
                b"\0asm\x01\0\0\0\0\x11\x07linking\x02\x05\x06\x01\x02.t\0\x02".as_slice(),
                Item::SegmentFlags(2),
            ),
            // a relocation of another type
            (
                b"\0asm\x01\0\0\0\x01\x05\x01`\0\x01\x7f\x03\x02\x01\0\x0a\x06\x01\x04\0A\0\x0b\0\x09\x07linking\x02\0\x0e\x0areloc.CODE\x02\x01\x0a".as_slice(),
                Item::RelocType(10),
            ),
        ],
    )
}

#[test]
fn items_that_are_not_linked_are_named(rt: HostRuntime) {
    assert!(rt; foreign_sections(rt.alloc()));
    assert!(rt; foreign_imports(rt.alloc()));
    assert!(rt; foreign_types_and_values(rt.alloc()));
    assert!(rt; foreign_segments_and_opcodes(rt.alloc()));
    assert!(rt; foreign_metadata(rt.alloc()));
}

fn metadata_are_out_of_place(alloc: Global) -> bool {
    break_rule(
        alloc,
        1,
        &[
            // no section linking
            b"\0asm\x01\0\0\0\x01\x05\x01`\0\x01\x7f\x03\x02\x01\0\x0a\x06\x01\x04\0A\0\x0b".as_slice(),
            // two of them
            b"\0asm\x01\0\0\0\x01\x05\x01`\0\x01\x7f\x03\x02\x01\0\x0a\x06\x01\x04\0A\0\x0b\0\x09\x07linking\x02\0\x09\x07linking\x02".as_slice(),
            // relocations before it
            b"\0asm\x01\0\0\0\x01\x05\x01`\0\x01\x7f\x03\x02\x01\0\x0a\x06\x01\x04\0A\0\x0b\0\x0d\x0areloc.CODE\x02\0\0\x09\x07linking\x02".as_slice(),
        ],
    )
}

fn indexes_are_out_of_range(alloc: Global) -> bool {
    break_rule(
        alloc,
        2,
        &[
            // a function without a body
            b"\0asm\x01\0\0\0\x01\x05\x01`\0\x01\x7f\x03\x02\x01\0\0\x09\x07linking\x02".as_slice(),
            // a data count that isn't that of the segments
            b"\0asm\x01\0\0\0\x0c\x01\x01\0\x09\x07linking\x02".as_slice(),
        ],
    ) && break_rule(
        alloc,
        3,
        &[
            // a type that isn't there
            b"\0asm\x01\0\0\0\x01\x05\x01`\0\x01\x7f\x03\x02\x01\x01\x0a\x06\x01\x04\0A\0\x0b\0\x09\x07linking\x02".as_slice(),
            // an exported function that isn't there
            b"\0asm\x01\0\0\0\x01\x05\x01`\0\x01\x7f\x03\x02\x01\0\x07\x05\x01\x01e\0\x01\x0a\x06\x01\x04\0A\0\x0b\0\x09\x07linking\x02".as_slice(),
            // a segment of memory 1
            b"\0asm\x01\0\0\0\x0b\x07\x01\x02\x01A\0\x0b\0\0\x09\x07linking\x02".as_slice(),
        ],
    )
}

fn symbols_disagree(alloc: Global) -> bool {
    break_rule(
        alloc,
        4,
        &[
            // a symbol of a function that isn't there
            b"\0asm\x01\0\0\0\x01\x05\x01`\0\x01\x7f\x03\x02\x01\0\x0a\x06\x01\x04\0A\0\x0b\0\x11\x07linking\x02\x08\x06\x01\0\0\x01\x01f".as_slice(),
            // an undefined symbol of a defined function
            b"\0asm\x01\0\0\0\x01\x05\x01`\0\x01\x7f\x03\x02\x01\0\x0a\x06\x01\x04\0A\0\x0b\0\x11\x07linking\x02\x08\x06\x01\0P\0\x01f".as_slice(),
            // a datum one byte past its segment
            b"\0asm\x01\0\0\0\x0b\x0a\x01\0A\0\x0b\x041234\0\x13\x07linking\x02\x08\x08\x01\x01\0\x01d\0\x01\x04".as_slice(),
            // a symbol of a section that isn't there
            b"\0asm\x01\0\0\0\x01\x05\x01`\0\x01\x7f\x03\x02\x01\0\x0a\x06\x01\x04\0A\0\x0b\0\x0f\x07linking\x02\x08\x04\x01\x03\0\x04".as_slice(),
        ],
    ) && break_rule(
        alloc,
        5,
        &[
            // a name twice
            b"\0asm\x01\0\0\0\x01\x05\x01`\0\x01\x7f\x03\x02\x01\0\x0a\x06\x01\x04\0A\0\x0b\0\x16\x07linking\x02\x08\x0b\x02\0\0\0\x01f\0\x04\0\x01f".as_slice(),
            // a name twice, one of them undefined and local
            b"\0asm\x01\0\0\0\x0b\x06\x01\0A\0\x0b\0\0\x17\x07linking\x02\x08\x0c\x02\x01\0\x01d\0\0\0\x01\x12\x01d".as_slice(),
        ],
    )
}

fn infos_and_inits_disagree(alloc: Global) -> bool {
    break_rule(
        alloc,
        6,
        &[
            // an info without a segment
            b"\0asm\x01\0\0\0\x01\x05\x01`\0\x01\x7f\x03\x02\x01\0\x0a\x06\x01\x04\0A\0\x0b\0\x11\x07linking\x02\x05\x06\x01\x02.d\0\0".as_slice(),
            // an alignment of 2^32
            b"\0asm\x01\0\0\0\x0b\x06\x01\0A\0\x0b\0\0\x11\x07linking\x02\x05\x06\x01\x02.d \0".as_slice(),
        ],
    ) && break_rule(
        alloc,
        7,
        &[
            // an init function that gives something
            b"\0asm\x01\0\0\0\x01\x05\x01`\0\x01\x7f\x03\x02\x01\0\x0a\x06\x01\x04\0A\0\x0b\0\x16\x07linking\x02\x08\x06\x01\0\0\0\x01f\x06\x03\x01\x01\0".as_slice(),
            // an init function without a symbol
            b"\0asm\x01\0\0\0\x01\x05\x01`\0\x01\x7f\x03\x02\x01\0\x0a\x06\x01\x04\0A\0\x0b\0\x11\x07linking\x02\x08\x01\0\x06\x03\x01\x01\0".as_slice(),
        ],
    )
}

#[test]
fn sections_that_disagree_are_refused(rt: HostRuntime) {
    assert!(rt; metadata_are_out_of_place(rt.alloc()));
    assert!(rt; indexes_are_out_of_range(rt.alloc()));
    assert!(rt; symbols_disagree(rt.alloc()));
    assert!(rt; infos_and_inits_disagree(rt.alloc()));
}

fn groups_disagree(alloc: Global) -> bool {
    break_rule(
        alloc,
        8,
        &[
            // two groups of one name
            b"\0asm\x01\0\0\0\x01\x05\x01`\0\x01\x7f\x03\x02\x01\0\x0a\x06\x01\x04\0A\0\x0b\0\x14\x07linking\x02\x07\x09\x02\x01g\0\0\x01g\0\0".as_slice(),
            // a member in two groups
            b"\0asm\x01\0\0\0\x01\x05\x01`\0\x01\x7f\x03\x02\x01\0\x0a\x06\x01\x04\0A\0\x0b\0\x18\x07linking\x02\x07\x0d\x02\x01g\0\x01\x01\0\x01h\0\x01\x01\0".as_slice(),
            // an imported member
            b"\0asm\x01\0\0\0\x01\x05\x01`\0\x01\x7f\x02\x09\x01\x03env\x01f\0\0\0\x12\x07linking\x02\x07\x07\x01\x01g\0\x01\x01\0".as_slice(),
        ],
    )
}

fn relocations_disagree(alloc: Global) -> bool {
    break_rule(
        alloc,
        9,
        &[
            // relocations of the type section
            b"\0asm\x01\0\0\0\x01\x05\x01`\0\x01\x7f\x03\x02\x01\0\x0a\x06\x01\x04\0A\0\x0b\0\x09\x07linking\x02\0\x0a\x07reloc.X\0\0".as_slice(),
            // two sections of relocations for one
            b"\0asm\x01\0\0\0\x01\x05\x01`\0\x01\x7f\x03\x02\x01\0\x0a\x06\x01\x04\0A\0\x0b\0\x09\x07linking\x02\0\x0d\x0areloc.CODE\x02\0\0\x0a\x07reloc.X\x02\0".as_slice(),
            // two windows that overlap
            b"\0asm\x01\0\0\0\x01\x05\x01`\0\x01\x7f\x03\x02\x01\0\x0a\x0a\x01\x08\0\x10\x80\x80\x80\x80\0\x0b\0\x11\x07linking\x02\x08\x06\x01\0\0\0\x01f\0\x13\x0areloc.CODE\x02\x02\0\x04\0\0\x08\0".as_slice(),
            // a window past the section
            b"\0asm\x01\0\0\0\x01\x05\x01`\0\x01\x7f\x03\x02\x01\0\x0a\x06\x01\x04\0A\0\x0b\0\x11\x07linking\x02\x08\x06\x01\0\0\0\x01f\0\x10\x0areloc.CODE\x02\x01\0\x04\0".as_slice(),
        ],
    ) && break_rule(
        alloc,
        10,
        &[
            // a symbol that isn't there
            b"\0asm\x01\0\0\0\x01\x05\x01`\0\x01\x7f\x03\x02\x01\0\x0a\x0a\x01\x08\0\x10\x80\x80\x80\x80\0\x0b\0\x11\x07linking\x02\x08\x06\x01\0\0\0\x01f\0\x10\x0areloc.CODE\x02\x01\0\x04\x01".as_slice(),
            // a symbol of another kind
            b"\0asm\x01\0\0\0\x01\x05\x01`\0\x01\x7f\x03\x02\x01\0\x0a\x0a\x01\x08\0\x10\x80\x80\x80\x80\0\x0b\0\x0f\x07linking\x02\x08\x04\x01\x03\0\x02\0\x10\x0areloc.CODE\x02\x01\0\x04\0".as_slice(),
            // a type that a relocation names and isn't there
            b"\0asm\x01\0\0\0\x01\x05\x01`\0\x01\x7f\x03\x02\x01\0\x0a\x0a\x01\x08\0\x10\x80\x80\x80\x80\0\x0b\0\x11\x07linking\x02\x08\x06\x01\0\0\0\x01f\0\x10\x0areloc.CODE\x02\x01\x06\x04\x01".as_slice(),
        ],
    )
}

fn windows_are_off(alloc: Global) -> bool {
    break_rule(
        alloc,
        11,
        &[
            // a window on another immediate
            b"\0asm\x01\0\0\0\x01\x05\x01`\0\x01\x7f\x03\x02\x01\0\x0a\x0a\x01\x08\0A\x80\x80\x80\x80\0\x0b\0\x11\x07linking\x02\x08\x06\x01\0\0\0\x01f\0\x10\x0areloc.CODE\x02\x01\0\x04\0".as_slice(),
            // a window on an immediate of one byte
            b"\0asm\x01\0\0\0\x01\x05\x01`\0\x01\x7f\x03\x02\x01\0\x0a\x0c\x01\x0a\0A\x07\x1aA\x07\x1aA\x07\x0b\0\x11\x07linking\x02\x08\x06\x01\0\0\0\x01f\0\x10\x0areloc.CODE\x02\x01\x01\x04\0".as_slice(),
            // a window on a body's size
            b"\0asm\x01\0\0\0\x01\x05\x01`\0\x01\x7f\x03\x02\x01\0\x0a\x0a\x01\x84\x80\x80\x80\0\0A\0\x0b\0\x11\x07linking\x02\x08\x06\x01\0\0\0\x01f\0\x10\x0areloc.CODE\x02\x01\0\x01\0".as_slice(),
            // a function that is set as a global
            b"\0asm\x01\0\0\0\x01\x04\x01`\0\0\x02\x0a\x01\x03env\x01g\x03\x7f\x01\x03\x02\x01\0\x0a\x0c\x01\x0a\0A\0$\x80\x80\x80\x80\0\x0b\0\x11\x07linking\x02\x08\x06\x01\0\0\0\x01f\0\x10\x0areloc.CODE\x03\x01\x07\x06\0".as_slice(),
            // a window in data past its segment
            b"\0asm\x01\0\0\0\x0b\x13\x02\0A\0\x0b\x041234\0A\0\x0b\x045678\0\x13\x07linking\x02\x08\x08\x01\x01\0\x01d\0\0\x04\0\x11\x0areloc.DATA\0\x01\x05\x08\0\0".as_slice(),
            // a type in data that isn't of data
            b"\0asm\x01\0\0\0\x0b\x0a\x01\0A\0\x0b\x041234\0\x13\x07linking\x02\x08\x08\x01\x01\0\x01d\0\0\x04\0\x11\x0areloc.DATA\0\x01\x03\x06\0\0".as_slice(),
        ],
    )
}

fn indexes_are_bare(alloc: Global) -> bool {
    break_rule(
        alloc,
        12,
        &[
            // a call without a window
            b"\0asm\x01\0\0\0\x01\x05\x01`\0\x01\x7f\x03\x02\x01\0\x0a\x06\x01\x04\0\x10\0\x0b\0\x09\x07linking\x02".as_slice(),
            // a table that isn't the first, without a window
            b"\0asm\x01\0\0\0\x01\x04\x01`\0\0\x02#\x01\x03env\x19__indirect_function_table\x01p\0\0\x03\x02\x01\0\x0a\x0d\x01\x0b\0A\0\x11\x80\x80\x80\x80\0\x01\x0b\0\x09\x07linking\x02\0\x10\x0areloc.CODE\x03\x01\x06\x06\0".as_slice(),
        ],
    )
}

#[test]
fn relocations_that_disagree_are_refused(rt: HostRuntime) {
    assert!(rt; groups_disagree(rt.alloc()));
    assert!(rt; relocations_disagree(rt.alloc()));
    assert!(rt; windows_are_off(rt.alloc()));
    assert!(rt; indexes_are_bare(rt.alloc()));
}

fn places_are_told(alloc: Global) -> bool {
    // a count past the end of its section
    let long = b"\0asm\x01\0\0\0\x01\x05\xff\xff\xff\xff\x0f".as_slice();
    // a size past the end of the file
    let cut = b"\0asm\x01\0\0\0\x01\x06\0".as_slice();
    // a broken value type before one that isn't linked
    let value = b"\0asm\x01\0\0\0\x01\x05\x01`\x02\x01{".as_slice();
    // the second of two sections
    let second = b"\0asm\x01\0\0\0\x01\x04\x01`\0\0\x03\x02\x02\0".as_slice();
    // a custom section without a name
    let nameless = b"\0asm\x01\0\0\0\0\x03\x02\xff\xff".as_slice();
    fault_of(alloc, long) == broken(Part::Section(0))
        && fault_of(alloc, cut) == broken(Part::Frame)
        && fault_of(alloc, value) == broken(Part::Section(0))
        && fault_of(alloc, second) == broken(Part::Section(1))
        && fault_of(alloc, nameless) == broken(Part::Section(0))
}

/// Whether each cut of the object of two functions is told.
fn cuts_are_told(alloc: Global) -> bool {
    let whole = calling_object();
    for len in 0..whole.len() {
        if fault_of(alloc, &whole[..len]) != broken(part_of_cut(len)) {
            return false;
        }
    }
    true
}

#[test]
fn broken_bytes_are_refused_by_their_place(rt: HostRuntime) {
    assert!(rt; places_are_told(rt.alloc()));
    assert!(rt; cuts_are_told(rt.alloc()));
}
