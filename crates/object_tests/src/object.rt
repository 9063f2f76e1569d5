//! Objects that are read whole: what is told of their bytes.

use object_file::{Object, read_object};
use object_rules::{Operand, Reloc};
use std::alloc::Global;
use test_kit::{calling_object, reloc};
use wl_base::Span;

/// An object with every section that is linked.
fn whole_object() -> &'static [u8] {
    b"\0asm\x01\0\0\0\x01\x0a\x02`\0\0`\x02}|\x01~\x02[\x04\x03env\x0f__linear_memory\x02\0\x01\x03env\x19__indirect_function_table\x01p\0\0\x03env\x0f__stack_pointer\x03\x7f\x01\x03env\x03ext\0\0\x03\x03\x02\0\x01\x06\x06\x01\x7f\0A*\x0b\x09\x07\x01\0A\x01\x0b\x01\x01\x0a5\x02,\0#\x80\x80\x80\x80\0A\x88\x80\x80\x80\06\x02\x84\x80\x80\x80\0\x10\x80\x80\x80\x80\0A\x80\x80\x80\x80\0\x11\x80\x80\x80\x80\0\x80\x80\x80\x80\0\x0b\x06\x01\x01\x7fB\x07\x0b\x0b\x15\x02\0A\0\x0b\x08abcdefgh\0A\x08\x0b\x02xy\0F\x07linking\x02\x08\x1d\x07\0\x10\0\0\0\x01\x01f\x02\x10\0\x01\0\x01d\0\x04\x04\x05\x10\0\x01\x11\x01u\x03\x02\x06\x05\x09\x01\x05.data\x02\0\x06\x03\x01\x07\x01c\x01?\x07\x09\x01\x01g\0\x02\x01\x02\0\x01\0$\x0areloc.CODE\x05\x07\x07\x04\x02\x04\x0a\x03|\x03\x11\x05\x08\0\x17\0\x01\x1d\x01\x06#\0\x14(\x04\0\x14\x0areloc.DATA\x06\x02\x02\x06\x01\x05\x0a\x03\x01\0\x0b\x09producersx\0\x10\x0b.debug_info????\0\x16\x11reloc..debug_info\x0b\x01\xff\xff".as_slice()
}

/// What is looked at in an object that was read.
#[derive(Clone, Copy)]
enum Look<'a> {
    /// How many types, imports, functions, globals, segments, symbols, init functions and groups there are.
    Lengths([usize; 8]),
    /// A symbol's name, where it has one.
    Symbol(usize, Option<&'a [u8]>),
    /// Where a function's body stands, and the name by which it is exported.
    Function(usize, Span, Option<&'a [u8]>),
    /// The operands of the first function.
    Operands(&'a [Operand]),
    /// Where a segment stands, how long its name is, and its alignment.
    Segment(usize, Span, usize, u32),
    /// The windows of a segment.
    Windows(usize, &'a [Reloc]),
}

fn lengths_of(object: &Object) -> [usize; 8] {
    [
        object.types.len(),
        object.imports.len(),
        object.functions.len(),
        object.globals.len(),
        object.segments.len(),
        object.symbols.len(),
        object.inits.len(),
        object.groups.len(),
    ]
}

fn is_named(object: &Object, at: usize, name: Option<&[u8]>) -> bool {
    match object.symbols.get(at) {
        Some(symbol) => symbol.name == name,
        None => false,
    }
}

fn function_is(object: &Object, at: usize, span: Span, export: Option<&[u8]>) -> bool {
    match object.functions.get(at) {
        Some(function) => function.span == span && function.export_name == export,
        None => false,
    }
}

fn operands_are(alloc: Global, object: &Object, operands: &[Operand]) -> bool {
    match object.functions.get(0) {
        Some(function) => match function.operands.to_list(alloc) {
            Ok(list) => list.as_slice() == operands,
            Err(_) => false,
        },
        None => false,
    }
}

fn segment_is(object: &Object, at: usize, span: Span, name: usize, align: u32) -> bool {
    match object.segments.get(at) {
        Some(segment) => {
            segment.span == span && segment.name.len() == name && segment.align == align
        }
        None => false,
    }
}

fn windows_are(object: &Object, at: usize, windows: &[Reloc]) -> bool {
    match object.segments.get(at) {
        Some(segment) => segment.windows == windows,
        None => false,
    }
}

fn has(alloc: Global, object: &Object, look: Look) -> bool {
    match look {
        Look::Lengths(lengths) => lengths_of(object) == lengths,
        Look::Symbol(at, name) => is_named(object, at, name),
        Look::Function(at, span, export) => function_is(object, at, span, export),
        Look::Operands(operands) => operands_are(alloc, object, operands),
        Look::Segment(at, span, name, align) => segment_is(object, at, span, name, align),
        Look::Windows(at, windows) => windows_are(object, at, windows),
    }
}

/// Whether these bytes are an object that has this.
fn is_read(alloc: Global, bytes: &[u8], look: Look) -> bool {
    match read_object(alloc, 1, bytes) {
        Ok(object) => has(alloc, &object, look),
        Err(_) => false,
    }
}

fn symbol(kind: u8, place: u32, symbol: u32, addend: i32) -> Operand {
    Operand::Symbol {
        kind,
        place,
        symbol,
        addend,
    }
}

fn span(start: u64, len: u64) -> Span {
    Span { start, len }
}

/// Whether the symbols have their names, those of imports among them, and the section's none.
fn symbols_are_named(alloc: Global, bytes: &[u8]) -> bool {
    let stack = b"__stack_pointer".as_slice();
    let table = b"__indirect_function_table".as_slice();
    is_read(alloc, bytes, Look::Symbol(0, Some(b"ext".as_slice())))
        && is_read(alloc, bytes, Look::Symbol(1, Some(b"f".as_slice())))
        && is_read(alloc, bytes, Look::Symbol(2, Some(stack)))
        && is_read(alloc, bytes, Look::Symbol(4, Some(table)))
        && is_read(alloc, bytes, Look::Symbol(5, Some(b"u".as_slice())))
        && is_read(alloc, bytes, Look::Symbol(6, None))
}

#[test]
fn an_object_with_every_section_is_read(rt: HostRuntime) {
    let alloc = rt.alloc();
    let lengths = Look::Lengths([2, 4, 2, 1, 2, 7, 1, 1]);
    assert!(rt; is_read(alloc, whole_object(), lengths));
    assert!(rt; symbols_are_named(alloc, whole_object()));
}

fn operands_are_placed(alloc: Global, bytes: &[u8]) -> bool {
    let operands = [
        symbol(7, 2, 2, 0),
        symbol(4, 8, 3, -4),
        symbol(3, 15, 5, 8),
        symbol(0, 21, 0, 0),
        symbol(1, 27, 1, 0),
        Operand::TypeRef {
            place: 33,
            index: 0,
        },
        symbol(20, 38, 4, 0),
    ];
    is_read(alloc, bytes, Look::Function(0, span(139, 44), None))
        && is_read(alloc, bytes, Look::Operands(&operands))
}

/// Whether a segment with an info has its two windows, and one without has none.
fn windows_are_placed(alloc: Global, bytes: &[u8]) -> bool {
    let windows = [reloc(2, 0, 1, 0), reloc(5, 4, 3, 1)];
    is_read(alloc, bytes, Look::Segment(0, span(198, 8), 5, 2))
        && is_read(alloc, bytes, Look::Windows(0, &windows))
        && is_read(alloc, bytes, Look::Segment(1, span(211, 2), 0, 0))
        && is_read(alloc, bytes, Look::Windows(1, &[]))
}

#[test]
fn operands_and_windows_are_placed(rt: HostRuntime) {
    assert!(rt; operands_are_placed(rt.alloc(), whole_object()));
    assert!(rt; windows_are_placed(rt.alloc(), whole_object()));
}

/// The last export of a function gives its name.
fn the_last_export_names(alloc: Global) -> bool {
    let bytes =
        b"\0asm\x01\0\0\0\x01\x05\x01`\0\x01\x7f\x03\x03\x02\0\0\x07\x09\x02\x01a\0\0\x01e\0\0\x0a\x0f\x02\x08\0\x10\x81\x80\x80\x80\0\x0b\x04\0A\x07\x0b\0\x16\x07linking\x02\x08\x0b\x02\0\0\0\x01f\0\0\x01\x01g\0\x10\x0areloc.CODE\x03\x01\0\x04\x01".as_slice();
    is_read(
        alloc,
        bytes,
        Look::Function(0, span(35, 8), Some(b"e".as_slice())),
    ) && is_read(alloc, bytes, Look::Function(1, span(44, 4), None))
}

#[test]
fn small_objects_are_read(rt: HostRuntime) {
    let alloc = rt.alloc();
    let call = Look::Function(0, span(24, 8), None);
    assert!(rt; is_read(alloc, calling_object(), call));
    assert!(rt; the_last_export_names(alloc));
    // as clang writes it, with long sizes and a custom section
    let bytes =
        b"\0asm\x01\0\0\0\x01\x86\x80\x80\x80\0\x01`\x01\x7f\x01\x7f\x02\x98\x80\x80\x80\0\x01\x03env\x0f__linear_memory\x02\0\0\x03\x82\x80\x80\x80\0\x01\0\x0a\x89\x80\x80\x80\0\x01\x07\0 \0A\x01j\x0b\0\x95\x80\x80\x80\0\x07linking\x02\x08\x86\x80\x80\x80\0\x01\0\x04\0\x01f\0\xad\x80\x80\x80\0\x09producers\x01\x0cprocessed-by\x01\x0cDebian clang\x0614.0.6".as_slice();
    assert!(rt; is_read(alloc, bytes, Look::Lengths([1, 1, 1, 0, 0, 1, 0, 0])));
    // a function of a float, and the sum of two i64
    let bytes =
        b"\0asm\x01\0\0\0\x01\x0b\x02`\x01|\0`\x02~~\x01~\x03\x03\x02\0\x01\x0a\x0f\x02\x05\0 \0\x1a\x0b\x07\0 \0 \x01|\x0b\0\x09\x07linking\x02".as_slice();
    assert!(rt; is_read(alloc, bytes, Look::Lengths([2, 0, 2, 0, 0, 0, 0, 0])));
}
