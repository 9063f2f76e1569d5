//! Modules, read and written, and their parts.

use std::alloc::Global;
use test_kit::{calling_module, module_of};
use wasm_grammar::{ReadFault, Stop};
use wasm_instr::Body;
use wasm_module::{
    DataSegment, Element, Module, ModuleFault, ModuleGlobal, data_segment_at, element_at,
    export_at, global_at, init_at, lent_name_at, lent_segment_at, read, write,
};
use wasm_types::{ConstExpr, GlobalType, Limits, TableType, ValType};
use wl_base::{Item, OutOfMemory};

fn table(funcref: bool, min: u32, max: u32) -> TableType {
    let max = Some(max);
    let limits = Limits { min, max };
    TableType { funcref, limits }
}

/// Whether a module has two functions of one type, a table, a memory and two exports.
fn calls_hold(m: &Module) -> bool {
    let functions = m.functions.as_slice() == [0, 0].as_slice();
    let tables = m.tables.as_slice() == [table(true, 1, 1)].as_slice();
    let memories = m.memories.as_slice() == [Limits { min: 2, max: None }].as_slice();
    let lengths = (m.types.len(), m.exports.len(), m.bodies.len());
    functions && tables && memories && m.data_count.is_none() && lengths == (1, 2, 2)
}

fn globals_hold(globals: &[ModuleGlobal]) -> bool {
    match globals {
        [first, second] => {
            (first.value, second.value) == (ConstExpr::Get(0), ConstExpr::I64(-1))
        }
        _ => false,
    }
}

fn elements_hold(elements: &[Element]) -> bool {
    match elements {
        [first, second] => {
            (first.table, first.offset) == (None, ConstExpr::I32(0))
                && first.functions.as_slice() == [0].as_slice()
                && (second.table, second.offset) == (Some(0), ConstExpr::Get(0))
        }
        _ => false,
    }
}

fn segments_hold(segments: &[DataSegment]) -> bool {
    match segments {
        [first, second] => {
            (first.memory, first.offset) == (None, ConstExpr::I32(0))
                && first.bytes.as_slice() == [0xaa].as_slice()
                && (second.memory, second.offset) == (Some(0), ConstExpr::I32(1))
        }
        _ => false,
    }
}

/// Whether a module has what is said of it in each section.
fn sections_hold(m: &Module) -> bool {
    let lengths = (
        m.types.len(),
        m.imports.len(),
        m.exports.len(),
        m.bodies.len(),
    );
    let functions = m.functions.as_slice() == [1].as_slice();
    let tables = m.tables.as_slice() == [table(false, 1, 2)].as_slice();
    let globals = globals_hold(m.globals.as_slice());
    let elements = elements_hold(m.elements.as_slice());
    let segments = segments_hold(m.data_segments.as_slice());
    let counted = lengths == (2, 2, 2, 1) && m.data_count == Some(2);
    counted && functions && tables && globals && elements && segments
}

/// Where the last instruction of a body ends.
fn end_of(body: &Body) -> Option<u32> {
    match body.code.as_slice() {
        [.., last] => Some(last.end),
        [] => None,
    }
}

/// Where the last instruction of a module's only body ends.
fn end_of_only(m: &Module) -> Option<u32> {
    match m.bodies.as_slice() {
        [body] => end_of(body),
        _ => None,
    }
}

fn is_spelled(alloc: Global, m: &Module, text: &[u8]) -> bool {
    match write(alloc, m) {
        Ok(written) => written.as_slice() == text,
        Err(_) => false,
    }
}

/// What is looked at in a module.
#[derive(Clone, Copy)]
enum Look<'a> {
    /// That it is one.
    Whole,
    /// Two functions of one type, a table, a memory and two exports.
    Calls,
    /// One or two items in each section.
    Sections,
    /// Where its only body ends.
    OnlyEnd(u32),
    /// The bytes that it is written as.
    Spelled(&'a [u8]),
}

fn holds(alloc: Global, m: &Module, look: Look) -> bool {
    match look {
        Look::Whole => true,
        Look::Calls => calls_hold(m),
        Look::Sections => sections_hold(m),
        Look::OnlyEnd(end) => end_of_only(m) == Some(end),
        Look::Spelled(text) => is_spelled(alloc, m, text),
    }
}

/// Whether these bytes are a module of which this holds.
fn is_module(alloc: Global, text: &[u8], look: Look) -> Result<bool, ModuleFault> {
    match read(alloc, text) {
        Err(fault) => Err(fault),
        Ok(m) => Ok(holds(alloc, &m, look)),
    }
}

/// Whether these bytes are a module that is written as the others.
fn is_written(alloc: Global, text: &[u8], short: &[u8]) -> Result<bool, ModuleFault> {
    is_module(alloc, text, Look::Spelled(short))
}

/// Whether these bytes are a module that is written again just so.
fn stays(alloc: Global, text: &[u8]) -> Result<bool, ModuleFault> {
    is_written(alloc, text, text)
}

/// Whether each of these is.
fn stay(alloc: Global, texts: &[&[u8]]) -> bool {
    for text in texts {
        if stays(alloc, text) != Ok(true) {
            return false;
        }
    }
    true
}

#[test]
fn a_module_is_read_and_written_as_short_as_can_be(rt: HostRuntime) {
    let alloc = rt.alloc();
    let text = calling_module();
    assert_eq!(rt; is_module(alloc, text, Look::Calls), Ok(true));
    // the call has its shortest spelling, and the section is four bytes shorter
    let short =
        b"\0asm\x01\0\0\0\x01\x05\x01\x60\x00\x01\x7f\x03\x03\x02\x00\x00\x04\x05\x01\x70\x01\x01\x01\x05\x03\x01\x00\x02\x07\x0e\x02\x06memory\x02\x00\x01f\x00\x00\x0a\x0b\x02\x04\x00\x10\x01\x0b\x04\x00\x41\x07\x0b";
    assert_eq!(rt; is_written(alloc, text, short.as_slice()), Ok(true));
}

#[test]
fn places_are_counted_from_a_body(rt: HostRuntime) {
    let text =
        b"\0asm\x01\0\0\0\x01\x04\x01\x60\x00\x00\x03\x02\x01\x00\x0a\x09\x01\x07\x00\x10\x80\x80\x00\x1a\x0b";
    assert_eq!(rt;
        is_module(rt.alloc(), text.as_slice(), Look::OnlyEnd(7)),
        Ok(true)
    );
}

#[test]
fn modules_of_no_padding_are_written_byte_for_byte(rt: HostRuntime) {
    let alloc = rt.alloc();
    // the header alone; a table, a memory and an export; and a function of a f64
    let nothing = b"\0asm\x01\0\0\0";
    let memory =
        b"\0asm\x01\0\0\0\x04\x05\x01\x70\x01\x01\x01\x05\x03\x01\x00\x02\x07\x0a\x01\x06memory\x02\x00";
    let of_f64 =
        b"\0asm\x01\0\0\0\x01\x05\x01\x60\x01\x7c\x00\x03\x02\x01\x00\x04\x05\x01\x70\x01\x01\x01\x05\x03\x01\x00\x02\x07\x0e\x02\x06memory\x02\x00\x01f\x00\x00\x0a\x07\x01\x05\x00\x20\x00\x1a\x0b";
    assert!(rt;
        stay(
            alloc,
            &[nothing.as_slice(), memory.as_slice(), of_f64.as_slice()]
        )
    );
}

#[test]
fn each_section_is_read_and_written(rt: HostRuntime) {
    let alloc = rt.alloc();
    let text =
        b"\0asm\x01\0\0\0\x01\x0a\x02\x60\x02\x7f\x7e\x01\x7d\x60\x00\x00\x02\x0e\x02\x01m\x01f\x00\x01\x01m\x01g\x03\x7f\x01\x03\x02\x01\x01\x04\x05\x01\x6f\x01\x01\x02\x05\x03\x01\x00\x01\x06\x0b\x02\x7f\x00\x23\x00\x0b\x7e\x01\x42\x7f\x0b\x07\x09\x02\x01a\x03\x00\x01b\x01\x00\x09\x0e\x02\x00\x41\x00\x0b\x01\x00\x02\x00\x23\x00\x0b\x00\x00\x0c\x01\x02\x0a\x05\x01\x03\x00\x01\x0b\x0b\x0d\x02\x00\x41\x00\x0b\x01\xaa\x02\x00\x41\x01\x0b\x00";
    assert_eq!(rt; stays(alloc, text.as_slice()), Ok(true));
    assert_eq!(rt; is_module(alloc, text.as_slice(), Look::Sections), Ok(true));
}

#[test]
fn custom_sections_and_padding_are_read_and_not_written(rt: HostRuntime) {
    let text =
        b"\0asm\x01\0\0\0\x00\x04\x01a\xff\xfe\x00\x01\x00\x03\x81\x00\x00\x00\x02\x01b\x04\x06\x81\x00\x70\x00\x85\x00\x07\x01\x00\x00\x04\x03\xc3\xa9x";
    let short = b"\0asm\x01\0\0\0\x04\x04\x01\x70\x00\x05";
    assert_eq!(rt;
        is_written(rt.alloc(), text.as_slice(), short.as_slice()),
        Ok(true)
    );
}

/// Whether these sections behind the header are no module.
fn is_refused(alloc: Global, sections: &[u8]) -> Result<bool, OutOfMemory> {
    let text = module_of(alloc, sections)?;
    Ok(is_module(alloc, text.as_slice(), Look::Whole) == Err(ModuleFault::NotModule))
}

/// Whether each of these sections behind the header is no module.
fn are_refused(alloc: Global, cases: &[&[u8]]) -> Result<bool, OutOfMemory> {
    let mut all = true;
    for sections in cases {
        all &= is_refused(alloc, sections)?;
    }
    Ok(all)
}

/// No header, and one of another version.
fn headers_are_refused(alloc: Global) -> bool {
    let fault = Err(ModuleFault::NotModule);
    stays(alloc, &[]) == fault && stays(alloc, b"\0asm\x02\0\0\0".as_slice()) == fault
}

#[test]
fn sections_out_of_place_are_refused(rt: HostRuntime) {
    let alloc = rt.alloc();
    assert!(rt; headers_are_refused(alloc));
    let cases = [
        // twice, too late, of no known id, cut short, and with a byte left over
        b"\x01\x01\x00\x01\x01\x00".as_slice(),
        b"\x0a\x01\x00\x0c\x01\x00".as_slice(),
        b"\x02\x01\x00\x01\x01\x00".as_slice(),
        b"\x0e\x01\x00".as_slice(),
        b"\x01".as_slice(),
        b"\x01\x02\x00".as_slice(),
        b"\x01\x02\x00\x00".as_slice(),
        // a start section and a section of tags
        b"\x08\x01\x00".as_slice(),
        b"\x0d\x01\x00".as_slice(),
        // a custom section with no name, with a name that is cut off, and with one that isn't UTF-8
        b"\x00\x00".as_slice(),
        b"\x00\x02\x02a".as_slice(),
        b"\x00\x02\x01\xff".as_slice(),
    ];
    assert!(rt; are_refused(alloc, &cases) == Ok(true));
    // and a module that isn't refused
    assert!(rt; are_refused(alloc, &[b"\x00\x01\x00".as_slice()]) == Ok(false));
}

#[test]
fn contents_of_another_form_are_refused(rt: HostRuntime) {
    let alloc = rt.alloc();
    let cases = [
        // a function with no body, a body with no function, and a data count that is another
        b"\x01\x04\x01\x60\x00\x00\x03\x02\x01\x00".as_slice(),
        b"\x0a\x04\x01\x02\x00\x0b".as_slice(),
        b"\x0c\x01\x01".as_slice(),
        b"\x0c\x01\x00\x0b\x06\x01\x00\x41\x00\x0b\x00".as_slice(),
        // a body of another size than its own
        b"\x03\x02\x01\x00\x0a\x05\x01\x03\x00\x0b\x00".as_slice(),
        // not linked: a value type, limits, an expression, segments, an opcode
        b"\x01\x05\x01\x60\x01\x7b\x00".as_slice(),
        b"\x05\x04\x01\x03\x01\x01".as_slice(),
        b"\x06\x09\x01\x7d\x00\x43\x00\x00\x00\x00\x0b".as_slice(),
        b"\x0b\x03\x01\x01\x00".as_slice(),
        b"\x09\x04\x01\x01\x00\x00".as_slice(),
        b"\x03\x02\x01\x00\x0a\x05\x01\x03\x00\xfd\x0b".as_slice(),
        // an export of kind 4
        b"\x07\x05\x01\x01a\x04\x00".as_slice(),
    ];
    assert_eq!(rt; are_refused(alloc, &cases), Ok(true));
}

fn expressions_have_places() -> bool {
    let rest = [9].as_slice();
    let get = [0x23, 0x05, 0x0b, 9];
    let foreign = |byte| Stop::Foreign(Item::ConstExpr(byte));
    init_at(true, 10, &get) == Ok((ConstExpr::Get(5), rest))
        && init_at(false, 10, &get) == Err(foreign(0x23))
        && init_at(true, 10, &[0x23, 0x05, 0x01]) == Err(foreign(0x01))
        && init_at(true, 10, &[]) == Err(Stop::Broken(10))
        && init_at(true, 10, &[0x41, 0x07, 0x0b, 9]) == Ok((ConstExpr::I32(7), rest))
}

fn globals_have_places() -> bool {
    let kind = GlobalType {
        kind: ValType::I32,
        var: true,
    };
    let value = ConstExpr::I32(7);
    let global = ModuleGlobal { kind, value };
    global_at(false, 10, &[0x7f, 0x01, 0x41, 0x07, 0x0b, 9]) == Ok((global, [9].as_slice()))
        && global_at(false, 10, &[0x7f, 0x02, 0x41]) == Err(Stop::Broken(8))
}

#[test]
fn expressions_and_globals_are_read_with_places(rt: HostRuntime) {
    assert!(rt; expressions_have_places());
    assert!(rt; globals_have_places());
}

fn segments_have_places() -> bool {
    let rest = [9].as_slice();
    let value = ConstExpr::I32(7);
    let foreign = |item| Stop::Foreign(item);
    let cut = [0x00, 0x41, 0x07, 0x0b, 0x02, 1];
    lent_segment_at(false, 10, &[0x80, 0x00, 0x41, 0x07, 0x0b, 0x02, 1, 2, 9])
        == Ok((None, value, [1, 2].as_slice(), rest))
        && lent_segment_at(true, 10, &[0x01]) == Err(foreign(Item::PassiveSegment))
        && lent_segment_at(true, 10, &[0x03]) == Err(foreign(Item::SegmentForm(3)))
        && lent_segment_at(true, 10, &cut) == Err(Stop::Broken(10))
}

fn names_have_places() -> bool {
    lent_name_at(10, &[0x01, 0x66, 9]) == Ok((b"f".as_slice(), [9].as_slice()))
        && lent_name_at(10, &[0x01, 0xff, 9]) == Err(Stop::Broken(7))
}

#[test]
fn segments_and_names_are_lent(rt: HostRuntime) {
    assert!(rt; segments_have_places());
    assert!(rt; names_have_places());
}

/// Whether the export at the front is named so, its kind and its index, and the bytes after it.
fn export_parts<'a>(
    alloc: Global,
    bytes: &'a [u8],
    name: &[u8],
) -> Result<(bool, u8, u32, &'a [u8]), ReadFault> {
    let (export, rest) = export_at(alloc, 10, bytes)?;
    let named = export.name.as_slice() == name;
    Ok((named, export.kind, export.index, rest))
}

/// The table and the offset of the element segment at the front, how many functions it has, and
/// the bytes after it.
fn element_parts(
    alloc: Global,
    get: bool,
    bytes: &[u8],
) -> Result<(Option<u32>, ConstExpr, usize, &[u8]), ReadFault> {
    let (element, rest) = element_at(alloc, get, 10, bytes)?;
    Ok((element.table, element.offset, element.functions.len(), rest))
}

/// The memory and the offset of the data segment at the front, how many bytes it has, and the bytes
/// after it.
fn segment_parts(
    alloc: Global,
    bytes: &[u8],
) -> Result<(Option<u32>, ConstExpr, usize, &[u8]), ReadFault> {
    let (segment, rest) = data_segment_at(alloc, false, 10, bytes)?;
    Ok((segment.memory, segment.offset, segment.bytes.len(), rest))
}

fn broken(at: usize) -> ReadFault {
    ReadFault::Stopped(Stop::Broken(at))
}

fn exports_have_places(alloc: Global) -> bool {
    let parts = Ok((true, 0, 3, [9].as_slice()));
    export_parts(alloc, &[0x01, 0x66, 0x00, 0x03, 9], b"f".as_slice()) == parts
        && export_parts(alloc, &[0x01, 0x66, 0x04, 0x03, 9], b"f".as_slice()) == Err(broken(7))
}

fn kept_segments_have_places(alloc: Global) -> bool {
    let foreign = ReadFault::Stopped(Stop::Foreign(Item::SegmentForm(1)));
    let no_kind = [0x02, 0x00, 0x41, 0x00, 0x0b, 0x01];
    let text = [0x00, 0x41, 0x07, 0x0b, 0x00, 9];
    let parts = Ok((None, ConstExpr::I32(7), 0, [9].as_slice()));
    element_parts(alloc, true, &[0x01, 9]) == Err(foreign)
        && element_parts(alloc, true, &no_kind) == Err(broken(9))
        && element_parts(alloc, false, &text) == parts
        && segment_parts(alloc, &text) == parts
}

#[test]
fn exports_and_segments_are_kept(rt: HostRuntime) {
    assert!(rt; exports_have_places(rt.alloc()));
    assert!(rt; kept_segments_have_places(rt.alloc()));
}
