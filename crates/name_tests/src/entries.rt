//! What is looked up of symbols: their types and imports, and which define their names where an object loses a group.
ghost use Rattle.name_entries.specs.Fits.{FitsObjects};

use crate::looking::{Look, Seen, look_at};
use name_entries::{Entries, TypeRef};
use std::alloc::Global;
use std::thread::Threads;
use wasm_types::{GlobalType, ValType};

/// An object with imports: a table, a global `g`, and functions `f` and `h`, of which `h` takes an i32; and
/// with a function that takes one. Its symbols are `f`, `h`, that function, `g`, the table and a datum.
fn importing() -> &'static [u8] {
    b"\0asm\x01\0\0\0\x01\x08\x02`\0\0`\x01\x7f\0\x02<\x04\x03env\x19__indirect_function_table\x01p\0\0\x03env\x01g\x03~\x01\x03env\x01f\0\0\x03env\x01h\0\x01\x03\x02\x01\x01\x0a\x04\x01\x02\0\x0b\0!\x07linking\x02\x08\x16\x06\0\x10\0\0\x10\x01\0\0\x02\x01d\x02\x10\0\x05\x10\0\x01\x10\x01x".as_slice()
}

/// An object with two functions and two segments, the first of each in a group. Its symbols are both
/// functions, and a datum in each segment.
fn grouped() -> &'static [u8] {
    b"\0asm\x01\0\0\0\x01\x04\x01`\0\0\x03\x03\x02\0\0\x0a\x07\x02\x02\0\x0b\x02\0\x0b\x0b\x0d\x02\0A\0\x0b\x01a\0A\0\x0b\x01b\0<\x07linking\x02\x05\x0b\x02\x02.d\0\0\x02.e\0\0\x08\x19\x04\0\0\0\x01f\0\0\x01\x01h\x01\0\x01d\0\0\x01\x01\0\x01e\x01\0\x01\x07\x09\x01\x01c\0\x02\0\0\x01\0".as_slice()
}

/// A type, as far as it is compared: how many parameters a function has, and whether a global is an i64
/// that may change.
#[derive(Clone, Copy, PartialEq, Eq)]
pub enum Kind {
    Function(usize),
    GlobalVar(bool),
    Untyped,
}

/// What is looked up of a symbol; of the field of its import the first byte.
#[derive(Clone, Copy, PartialEq, Eq)]
pub struct Found {
    kind: Kind,
    field: Option<u8>,
    imported: bool,
    defines: bool,
    index: u32,
}

fn kind_of(kind: TypeRef<'_>) -> Kind {
    match kind {
        TypeRef::Function(kind) => Kind::Function(kind.params.len()),
        TypeRef::GlobalVar(kind) => Kind::GlobalVar(
            kind == GlobalType {
                kind: ValType::I64,
                var: true,
            },
        ),
        TypeRef::Untyped => Kind::Untyped,
    }
}

/// What is found of a symbol.
fn look_up(entries: &Entries<'_>, object: u32, place: u32) -> Option<Found>
    requires { FitsObjects entries.now }
{
    let entry = entries.entry(object, place)?;
    let kind = entries.type_of(object, place)?;
    let field = match entries.import_of(object, place) {
        Some(import) => import.field.get(0).copied(),
        None => None,
    };
    Some(Found {
        kind: kind_of(kind),
        field,
        imported: entries.is_imported(object, place),
        defines: entry.defines,
        index: entry.index,
    })
}

/// What is found of the first six symbols of an object.
pub fn all_found(entries: &Entries<'_>, object: u32) -> [Option<Found>; 6]
    requires { FitsObjects entries.now }
{
    [
        look_up(entries, object, 0),
        look_up(entries, object, 1),
        look_up(entries, object, 2),
        look_up(entries, object, 3),
        look_up(entries, object, 4),
        look_up(entries, object, 5),
    ]
}

/// A symbol that stands on an import of this field, and defines nothing.
const fn imported(kind: Kind, field: u8) -> Option<Found> {
    Some(Found {
        kind,
        field: Some(field),
        imported: true,
        defines: false,
        index: 0,
    })
}

/// A symbol that stands on no import: whether it defines its name, and which definition it is.
const fn own(kind: Kind, defines: bool, index: u32) -> Option<Found> {
    Some(Found {
        kind,
        field: None,
        imported: false,
        defines,
        index,
    })
}

/// Whether this is found of the first symbols of an object, by its place among these files.
fn are_found<R: Threads + Sync>(
    rt: &R,
    alloc: Global,
    files: &[&[u8]],
    object: u32,
    wanted: [Option<Found>; 6],
) -> bool {
    match look_at(rt, alloc, files, 1, Look::Symbols(object)) {
        Some(Seen::Symbols(found)) => found == wanted,
        _ => false,
    }
}

#[test]
fn indexes_name_imports_and_then_definitions(rt: HostRuntime) {
    let wanted = [
        imported(Kind::Function(0), b'f'),
        imported(Kind::Function(1), b'h'),
        own(Kind::Function(1), true, 0),
        imported(Kind::GlobalVar(true), b'g'),
        imported(Kind::Untyped, b'_'),
        own(Kind::Untyped, false, 0),
    ];
    assert!(rt; are_found(&rt, rt.alloc(), &[importing()], 0, wanted));
}

/// The symbols of an object that keeps its group, or loses it.
fn with_group(is_kept: bool) -> [Option<Found>; 6] {
    let function = Kind::Function(0);
    [
        own(function, is_kept, 0),
        own(function, true, 1),
        own(Kind::Untyped, is_kept, 0),
        own(Kind::Untyped, true, 1),
        None,
        None,
    ]
}

#[test]
fn members_of_a_lost_group_define_nothing(rt: HostRuntime) {
    let files = [grouped(), grouped()];
    assert!(rt; are_found(&rt, rt.alloc(), &files, 0, with_group(true)));
    assert!(rt; are_found(&rt, rt.alloc(), &files, 1, with_group(false)));
}
