//! Objects that are judged: for each kind of reference a valid one and an invalid one. Each is spelled
//! by its bytes and read first, so that a case says what a file says.
//!
//! All have the types 0, () to (), and 1, (i32) to (i32); an imported global `s`, a var i32; an
//! imported function `e` of type 1, so that the first that is defined is function 1; a const i64 and a
//! var i32 as globals; and a datum. Their symbols are, in this order, `e`, function 1, the datum, `s`,
//! the table, and the two globals.

ghost use Rattle.object_file.specs.ObjectOf.{IsObject};

use object_file::{Object, read_object};
use std::alloc::Global;
use std::test::Fail;
use valid_objects::{ValidError, validate_object};
use wl_base::{InvalidAt, OutOfMemory, Seq};

/// More functions than any case has.
const MANY: usize = 1000;

/// The header, the types and the imports.
fn before() -> &'static [u8] {
    b"\0asm\x01\0\0\0\x01\x09\x02`\0\0`\x01\x7f\x01\x7f\x02K\x04\x03env\x0f__linear_memory\x02\0\x01\x03env\x19__indirect_function_table\x01p\0\0\x03env\x01s\x03\x7f\x01\x03env\x01e\0\x01".as_slice()
}

/// Function 1, of type 0, and the globals.
fn declared() -> &'static [u8] {
    b"\x03\x02\x01\0\x06\x0b\x02~\0B\x05\x0b\x7f\x01A\x05\x0b".as_slice()
}

/// The datum and the symbols.
fn behind() -> &'static [u8] {
    b"\x0b\x0a\x01\0A\0\x0b\x04abcd\08\x07linking\x02\x08\"\x07\0\x10\0\0\0\x01\x01f\x01\0\x01d\0\0\x04\x02\x10\0\x05\x10\0\x02\0\x01\x02g0\x02\0\x02\x02g1\x05\x09\x01\x05.data\0\0".as_slice()
}

/// Sections of an object, and the part of it that isn't valid.
#[derive(Clone, Copy)]
struct Case<'a> {
    /// The types of functions, and the globals.
    declared: &'a [u8],
    /// The bodies.
    code: &'a [u8],
    /// Their relocations.
    relocs: &'a [u8],
    fault: Option<InvalidAt>,
}

fn valid<'a>(code: &'a [u8], relocs: &'a [u8]) -> Case<'a> {
    Case {
        declared: declared(),
        code,
        relocs,
        fault: None,
    }
}

/// The body of function 1 has no typing.
fn fails<'a>(code: &'a [u8], relocs: &'a [u8]) -> Case<'a> {
    Case {
        declared: declared(),
        code,
        relocs,
        fault: Some(InvalidAt::Body(1)),
    }
}

/// The bytes of the object.
fn bytes_of(alloc: Global, case: &Case<'_>) -> Result<Seq<u8>, OutOfMemory> {
    let mut bytes = Seq::new(alloc);
    bytes.extend_from_slice(before())?;
    bytes.extend_from_slice(case.declared)?;
    bytes.extend_from_slice(case.code)?;
    bytes.extend_from_slice(behind())?;
    bytes.extend_from_slice(case.relocs)?;
    Ok(bytes)
}

/// What is answered of an object of few functions.
#[tactic(auto, using(crate::proofs::Few::few))]
fn judged(alloc: Global, o: &Object, bytes: &[u8]) -> Option<Result<(), ValidError>>
    requires { IsObject o.now.input bytes.now o.now }
{
    if o.imports.len() > MANY || o.functions.len() > MANY {
        return None;
    }
    Some(validate_object(alloc, o, bytes))
}

/// What is answered of the object that these bytes are; none where they are no object.
#[tactic(auto, using(crate::proofs::Few::read))]
fn answer(alloc: Global, bytes: &[u8]) -> Option<Result<(), ValidError>> {
    match read_object(alloc, 1, bytes) {
        Ok(o) => judged(alloc, &o, bytes),
        Err(_) => None,
    }
}

fn is_judged(alloc: Global, bytes: &[u8], fault: Option<InvalidAt>) -> bool {
    match answer(alloc, bytes) {
        Some(Ok(())) => fault == None,
        Some(Err(ValidError::Invalid(at))) => fault == Some(at),
        Some(Err(ValidError::OutOfMemory)) | None => false,
    }
}

fn holds(alloc: Global, case: &Case<'_>) -> bool {
    match bytes_of(alloc, case) {
        Ok(bytes) => is_judged(alloc, bytes.as_slice(), case.fault),
        Err(_) => false,
    }
}

fn hold(alloc: Global, cases: &[Case<'_>]) -> bool {
    for case in cases {
        if !holds(alloc, case) {
            return false;
        }
    }
    true
}

#[test]
fn calls_have_the_types_of_their_symbols(rt: HostRuntime) -> Result<(), Fail> {
    let alloc = rt.alloc();
    let cases = [
        // of the imported function, with its argument
        valid(
            b"\x0a\x0d\x01\x0b\0A\x01\x10\x80\x80\x80\x80\0\x1a\x0b".as_slice(),
            b"\0\x10\x0areloc.CODE\x04\x01\0\x06\0".as_slice(),
        ),
        // the index is that of the function, the symbol the imported one: it takes an argument
        fails(
            b"\x0a\x0a\x01\x08\0\x10\x81\x80\x80\x80\0\x0b".as_slice(),
            b"\0\x10\x0areloc.CODE\x04\x01\0\x04\0".as_slice(),
        ),
        // of the function, by the other index
        valid(
            b"\x0a\x0a\x01\x08\0\x10\x80\x80\x80\x80\0\x0b".as_slice(),
            b"\0\x10\x0areloc.CODE\x04\x01\0\x04\x01".as_slice(),
        ),
        // which takes none, and gives none
        fails(
            b"\x0a\x0b\x01\x09\0\x10\x80\x80\x80\x80\0\x1a\x0b".as_slice(),
            b"\0\x10\x0areloc.CODE\x04\x01\0\x04\x01".as_slice(),
        ),
    ];
    assert!(rt; hold(alloc, &cases));
    Ok(())
}

#[test]
fn blocks_and_calls_through_the_table_have_types_by_index(rt: HostRuntime) -> Result<(), Fail> {
    let alloc = rt.alloc();
    let cases = [
        // a block that takes and gives an i32
        valid(
            b"\x0a\x0e\x01\x0c\0A\x01\x02\x81\x80\x80\x80\0\x0b\x1a\x0b".as_slice(),
            b"\0\x10\x0areloc.CODE\x04\x01\x06\x06\x01".as_slice(),
        ),
        // one that finds none
        fails(
            b"\x0a\x0c\x01\x0a\0\x02\x81\x80\x80\x80\0\x0b\x1a\x0b".as_slice(),
            b"\0\x10\x0areloc.CODE\x04\x01\x06\x04\x01".as_slice(),
        ),
        // a call through the table
        valid(
            b"\x0a\x14\x01\x12\0A\x01A\x01\x11\x81\x80\x80\x80\0\x80\x80\x80\x80\0\x1a\x0b".as_slice(),
            b"\0\x13\x0areloc.CODE\x04\x02\x06\x08\x01\x14\x0d\x04".as_slice(),
        ),
        // one without its argument
        fails(
            b"\x0a\x12\x01\x10\0A\x01\x11\x81\x80\x80\x80\0\x80\x80\x80\x80\0\x1a\x0b".as_slice(),
            b"\0\x13\x0areloc.CODE\x04\x02\x06\x06\x01\x14\x0b\x04".as_slice(),
        ),
    ];
    assert!(rt; hold(alloc, &cases));
    Ok(())
}

#[test]
fn globals_have_the_types_of_their_symbols(rt: HostRuntime) -> Result<(), Fail> {
    let alloc = rt.alloc();
    let cases = [
        // a var global that is read and set
        valid(
            b"\x0a\x10\x01\x0e\0#\x80\x80\x80\x80\0$\x80\x80\x80\x80\0\x0b".as_slice(),
            b"\0\x13\x0areloc.CODE\x04\x02\x07\x04\x03\x07\x0a\x03".as_slice(),
        ),
        // that is set to an i64
        fails(
            b"\x0a\x0c\x01\x0a\0B\x01$\x80\x80\x80\x80\0\x0b".as_slice(),
            b"\0\x10\x0areloc.CODE\x04\x01\x07\x06\x03".as_slice(),
        ),
        // the index of another, of i64
        valid(
            b"\x0a\x0c\x01\x0a\0#\x81\x80\x80\x80\0E\x1a\x0b".as_slice(),
            b"\0\x10\x0areloc.CODE\x04\x01\x07\x04\x03".as_slice(),
        ),
        // a const global that is read
        valid(
            b"\x0a\x0c\x01\x0a\0#\x80\x80\x80\x80\0P\x1a\x0b".as_slice(),
            b"\0\x10\x0areloc.CODE\x04\x01\x07\x04\x05".as_slice(),
        ),
        // that is set
        fails(
            b"\x0a\x0c\x01\x0a\0B\x01$\x80\x80\x80\x80\0\x0b".as_slice(),
            b"\0\x10\x0areloc.CODE\x04\x01\x07\x06\x05".as_slice(),
        ),
    ];
    assert!(rt; hold(alloc, &cases));
    Ok(())
}

#[test]
fn addresses_are_numbers(rt: HostRuntime) -> Result<(), Fail> {
    let alloc = rt.alloc();
    let cases = [
        // of a datum and of a function, each in a cell
        valid(
            b"\x0a\x12\x01\x10\0#\x80\x80\x80\x80\0\x1a#\x80\x80\x80\x80\0\x1a\x0b".as_slice(),
            b"\0\x13\x0areloc.CODE\x04\x02\x07\x04\x02\x07\x0b\0".as_slice(),
        ),
        // as an i64
        fails(
            b"\x0a\x0c\x01\x0a\0#\x80\x80\x80\x80\0P\x1a\x0b".as_slice(),
            b"\0\x10\x0areloc.CODE\x04\x01\x07\x04\x02".as_slice(),
        ),
        // a datum as a number and as an offset, a slot of the table
        valid(
            b"\x0a\x19\x01\x17\0A\x80\x80\x80\x80\0(\x02\x80\x80\x80\x80\0\x1aA\x80\x80\x80\x80\0\x1a\x0b".as_slice(),
            b"\0\x18\x0areloc.CODE\x04\x03\x04\x04\x02\0\x03\x0b\x02\0\x01\x12\x01".as_slice(),
        ),
        // a datum as an i64
        fails(
            b"\x0a\x0c\x01\x0a\0A\x80\x80\x80\x80\0P\x1a\x0b".as_slice(),
            b"\0\x11\x0areloc.CODE\x04\x01\x04\x04\x02\0".as_slice(),
        ),
    ];
    assert!(rt; hold(alloc, &cases));
    Ok(())
}

#[test]
fn the_first_fault_is_told(rt: HostRuntime) -> Result<(), Fail> {
    let alloc = rt.alloc();
    let cases = [
        // the second of three, behind an imported one
        Case {
            declared: b"\x03\x04\x03\0\0\0\x06\x0b\x02~\0B\x05\x0b\x7f\x01A\x05\x0b".as_slice(),
            code: b"\x0a\x14\x03\x08\0\x10\x80\x80\x80\x80\0\x0b\x04\0A\x01\x0b\x04\0A\x01\x0b".as_slice(),
            relocs: b"\0\x10\x0areloc.CODE\x04\x01\0\x04\x01".as_slice(),
            fault: Some(InvalidAt::Body(2)),
        },
        // a number is left
        fails(b"\x0a\x06\x01\x04\0A\x01\x0b".as_slice(), b"".as_slice()),
        // globals with values of their types
        valid(b"\x0a\x04\x01\x02\0\x0b".as_slice(), b"".as_slice()),
        // an i64 for an i32, before a body
        Case {
            declared: b"\x03\x02\x01\0\x06\x0b\x02~\0B\x05\x0b\x7f\x01B\x05\x0b".as_slice(),
            code: b"\x0a\x06\x01\x04\0A\x01\x0b".as_slice(),
            relocs: b"".as_slice(),
            fault: Some(InvalidAt::Module),
        },
    ];
    assert!(rt; hold(alloc, &cases));
    Ok(())
}

#[test]
fn the_first_function_without_imports_is_number_0(rt: HostRuntime) -> Result<(), Fail> {
    let alloc = rt.alloc();
    // `f` calls `g`, and both give an i32
    let valid = is_judged(
        alloc,
        b"\0asm\x01\0\0\0\x01\x05\x01`\0\x01\x7f\x03\x03\x02\0\0\x0a\x0f\x02\x08\0\x10\x81\x80\x80\x80\0\x0b\x04\0A\x07\x0b\0\x16\x07linking\x02\x08\x0b\x02\0\0\0\x01f\0\0\x01\x01g\0\x10\x0areloc.CODE\x02\x01\0\x04\x01".as_slice(),
        None,
    );
    assert!(rt; valid);
    // `f` drops what `g` gives
    let invalid = is_judged(
        alloc,
        b"\0asm\x01\0\0\0\x01\x05\x01`\0\x01\x7f\x03\x03\x02\0\0\x0a\x10\x02\x09\0\x10\x81\x80\x80\x80\0\x1a\x0b\x04\0A\x07\x0b\0\x16\x07linking\x02\x08\x0b\x02\0\0\0\x01f\0\0\x01\x01g\0\x10\x0areloc.CODE\x02\x01\0\x04\x01".as_slice(),
        Some(InvalidAt::Body(0)),
    );
    assert!(rt; invalid);
    Ok(())
}
