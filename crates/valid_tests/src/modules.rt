//! Modules that are judged: valid ones, and invalid ones for each kind of rule. Each is spelled by its
//! bytes and read first, so that a case says what a file says.
ghost use Rattle.std.specs.Prelude.{◌≡◌, ◌≤◌, true, length};

use std::alloc::Global;
use std::test::Fail;
use std::thread::Threads;
use wasm_module::{Module, read};
use wasm_valid::{ValidError, validate, validate_by};
use wl_base::{InvalidAt, OutOfMemory, Seq};
use wl_fan::Workers;

/// More functions than any case has.
const MANY: usize = 1000;

/// A module's bytes, and the part of it that isn't valid.
#[derive(Clone, Copy)]
struct Case<'a> {
    text: &'a [u8],
    fault: Option<InvalidAt>,
}

fn valid(text: &[u8]) -> Case<'_> {
    Case { text, fault: None }
}

/// A rule outside the bodies fails.
fn fails(text: &[u8]) -> Case<'_> {
    Case {
        text,
        fault: Some(InvalidAt::Module),
    }
}

/// The body of the function of this number is the first that has no typing.
fn fails_in(number: u32, text: &[u8]) -> Case<'_> {
    Case {
        text,
        fault: Some(InvalidAt::Body(number)),
    }
}

/// Whether a module of few functions has these bodies for its functions.
fn is_small(m: &Module) -> bool
    ensures { result ≡ true → (length m.now.bodies ≡ length m.now.functions) × (length m.now.imports ≤ 1000) × (length m.now.functions ≤ 1000) }
{
    m.bodies.len() == m.functions.len() && m.imports.len() <= MANY && m.functions.len() <= MANY
}

/// What is answered of a module of few functions.
#[tactic(auto, using(crate::proofs::Few::few))]
fn told_alone(alloc: Global, m: &Module) -> Option<Result<(), ValidError>> {
    if !is_small(m) {
        return None;
    }
    Some(validate(alloc, m))
}

/// What so many workers answer of it.
fn told_by<R: Threads + Sync>(
    rt: &R,
    alloc: Global,
    m: &Module,
    workers: Workers,
) -> Option<Result<(), ValidError>> {
    if is_small(m) {
        Some(validate_by(rt, alloc, m, workers))
    } else {
        None
    }
}

/// What is answered of it, where no number of workers answers otherwise.
fn judged<R: Threads + Sync>(rt: &R, alloc: Global, m: &Module) -> Option<Result<(), ValidError>> {
    let alone = told_alone(alloc, m)?;
    for count in [1, 2, 5] {
        if told_by(rt, alloc, m, Workers::new(count)?)? != alone {
            return None;
        }
    }
    Some(alone)
}

/// What is answered of the module that these bytes are.
fn answer<R: Threads + Sync>(rt: &R, alloc: Global, text: &[u8]) -> Option<Result<(), ValidError>> {
    match read(alloc, text) {
        Ok(m) => judged(rt, alloc, &m),
        Err(_) => None,
    }
}

fn holds<R: Threads + Sync>(rt: &R, alloc: Global, case: &Case<'_>) -> bool {
    match answer(rt, alloc, case.text) {
        Some(Ok(())) => case.fault == None,
        Some(Err(ValidError::Invalid(at))) => case.fault == Some(at),
        Some(Err(ValidError::OutOfMemory)) | None => false,
    }
}

fn hold<R: Threads + Sync>(rt: &R, alloc: Global, cases: &[Case<'_>]) -> bool {
    for case in cases {
        if !holds(rt, alloc, case) {
            return false;
        }
    }
    true
}

#[test]
fn modules_with_a_part_of_each_kind_are_valid(rt: HostRuntime) -> Result<(), Fail> {
    let alloc = rt.alloc();
    let cases = [
        // the header alone
        valid(b"\0asm\x01\0\0\0".as_slice()),
        // functions, a table, a memory, globals, exports and segments
        valid(
            b"\0asm\x01\0\0\0\x01\x09\x02\x60\0\0\x60\x01\x7f\x01\x7f\x02\x15\x03\x01m\x01f\0\0\x01m\x01g\x03\x7f\0\x01m\x01g\x03\x7f\x01\x03\x02\x01\x01\x04\x05\x01p\x01\x01\x02\x05\x06\x01\x01\x01\x80\x80\x04\x06\x0b\x02\x7e\x01B\x05\x0b\x7f\0\x23\0\x0b\x07\x11\x04\x01f\0\x01\x01t\x01\0\x01n\x02\0\x01g\x03\x03\x09\x10\x02\0A\0\x0b\x02\x01\0\x02\0\x23\0\x0b\0\x01\x01\x0a\x06\x01\x04\0\x20\0\x0b\x0b\x0d\x02\0A\x08\x0b\x01\xaa\x02\0\x23\0\x0b\0".as_slice(),
        ),
        // a memory of 65,536 pages
        valid(b"\0asm\x01\0\0\0\x05\x08\x01\x01\x80\x80\x04\x80\x80\x04".as_slice()),
        // a table of at least 2 slots, at most 2
        valid(b"\0asm\x01\0\0\0\x04\x05\x01o\x01\x02\x02".as_slice()),
    ];
    assert!(rt; hold(&rt, alloc, &cases));
    Ok(())
}

#[test]
fn types_and_limits_are_in_range(rt: HostRuntime) -> Result<(), Fail> {
    let alloc = rt.alloc();
    let cases = [
        // a type of a function that is defined
        fails(
            b"\0asm\x01\0\0\0\x01\x04\x01\x60\0\0\x03\x02\x01\x01\x0a\x04\x01\x02\0\x0b".as_slice(),
        ),
        // a type of one that is imported
        fails(b"\0asm\x01\0\0\0\x01\x04\x01\x60\0\0\x02\x07\x01\x01m\x01f\0\x01".as_slice()),
        // a memory that is imported and one that is defined
        fails(b"\0asm\x01\0\0\0\x02\x08\x01\x01m\x01n\x02\0\x01\x05\x03\x01\0\x01".as_slice()),
        // a memory of a page more
        fails(b"\0asm\x01\0\0\0\x05\x05\x01\0\x81\x80\x04".as_slice()),
        // a memory of at least 2 pages, at most 1
        fails(b"\0asm\x01\0\0\0\x05\x04\x01\x01\x02\x01".as_slice()),
        // a table of at least 2 slots, at most 1
        fails(b"\0asm\x01\0\0\0\x04\x05\x01p\x01\x02\x01".as_slice()),
    ];
    assert!(rt; hold(&rt, alloc, &cases));
    Ok(())
}

#[test]
fn first_values_have_their_types(rt: HostRuntime) -> Result<(), Fail> {
    let alloc = rt.alloc();
    let cases = [
        // an i64 for an i32
        fails(b"\0asm\x01\0\0\0\x06\x06\x01\x7f\0B\x05\x0b".as_slice()),
        // of a global that is defined
        fails(b"\0asm\x01\0\0\0\x06\x0b\x02\x7f\0A\x05\x0b\x7f\0\x23\0\x0b".as_slice()),
        // of an imported one that is var
        fails(
            b"\0asm\x01\0\0\0\x02\x08\x01\x01m\x01g\x03\x7f\x01\x06\x06\x01\x7f\0\x23\0\x0b".as_slice(),
        ),
    ];
    assert!(rt; hold(&rt, alloc, &cases));
    Ok(())
}

#[test]
fn exports_are_there_under_names_that_differ(rt: HostRuntime) -> Result<(), Fail> {
    let alloc = rt.alloc();
    let cases = [
        // a function that is not there
        fails(
            b"\0asm\x01\0\0\0\x01\x04\x01\x60\0\0\x03\x02\x01\0\x07\x05\x01\x01f\0\x01\x0a\x04\x01\x02\0\x0b".as_slice(),
        ),
        // a memory that is not there
        fails(b"\0asm\x01\0\0\0\x05\x03\x01\0\x01\x07\x05\x01\x01n\x02\x01".as_slice()),
        // the names a, b, a
        fails(
            b"\0asm\x01\0\0\0\x04\x04\x01p\0\x01\x05\x03\x01\0\x01\x07\x0d\x03\x01a\x01\0\x01b\x02\0\x01a\x02\0".as_slice(),
        ),
    ];
    assert!(rt; hold(&rt, alloc, &cases));
    Ok(())
}

#[test]
fn segments_have_their_table_memory_and_functions(rt: HostRuntime) -> Result<(), Fail> {
    let alloc = rt.alloc();
    let cases = [
        // functions in no table
        fails(
            b"\0asm\x01\0\0\0\x01\x04\x01\x60\0\0\x03\x02\x01\0\x09\x07\x01\0A\0\x0b\x01\0\x0a\x04\x01\x02\0\x0b".as_slice(),
        ),
        // functions in a table of externref
        fails(
            b"\0asm\x01\0\0\0\x01\x04\x01\x60\0\0\x03\x02\x01\0\x04\x04\x01o\0\x01\x09\x07\x01\0A\0\x0b\x01\0\x0a\x04\x01\x02\0\x0b".as_slice(),
        ),
        // an i64 for the slot
        fails(
            b"\0asm\x01\0\0\0\x01\x04\x01\x60\0\0\x03\x02\x01\0\x04\x04\x01p\0\x01\x09\x07\x01\0B\0\x0b\x01\0\x0a\x04\x01\x02\0\x0b".as_slice(),
        ),
        // a function that is not there
        fails(
            b"\0asm\x01\0\0\0\x01\x04\x01\x60\0\0\x03\x02\x01\0\x04\x04\x01p\0\x01\x09\x08\x01\0A\0\x0b\x02\0\x01\x0a\x04\x01\x02\0\x0b".as_slice(),
        ),
        // data in no memory
        fails(b"\0asm\x01\0\0\0\x0b\x06\x01\0A\0\x0b\0".as_slice()),
        // an i64 for the address
        fails(b"\0asm\x01\0\0\0\x05\x03\x01\0\x01\x0b\x06\x01\0B\0\x0b\0".as_slice()),
    ];
    assert!(rt; hold(&rt, alloc, &cases));
    Ok(())
}

#[test]
fn the_first_body_without_a_typing_is_told(rt: HostRuntime) -> Result<(), Fail> {
    let alloc = rt.alloc();
    let cases = [
        // a number is left: 00 41 01 0B of type () to ()
        fails_in(
            0,
            b"\0asm\x01\0\0\0\x01\x04\x01\x60\0\0\x03\x02\x01\0\x07\x05\x01\x01f\0\0\x0a\x06\x01\x04\0A\x01\x0b".as_slice(),
        ),
        // the second of three, behind an imported function
        fails_in(
            2,
            b"\0asm\x01\0\0\0\x01\x04\x01\x60\0\0\x02\x07\x01\x01m\x01f\0\0\x03\x04\x03\0\0\0\x0a\x0e\x03\x02\0\x0b\x04\0A\x01\x0b\x04\0A\x01\x0b".as_slice(),
        ),
        // a rule outside the bodies comes first
        fails(
            b"\0asm\x01\0\0\0\x01\x04\x01\x60\0\0\x03\x02\x01\0\x05\x04\x01\x01\x02\x01\x0a\x06\x01\x04\0A\x01\x0b".as_slice(),
        ),
    ];
    assert!(rt; hold(&rt, alloc, &cases));
    Ok(())
}

#[test]
fn blocks_and_branches_are_typed(rt: HostRuntime) -> Result<(), Fail> {
    let alloc = rt.alloc();
    let cases = [
        // a loop takes nothing at its label
        valid(
            b"\0asm\x01\0\0\0\x01\x05\x01\x60\0\x01\x7f\x03\x02\x01\0\x0a\x09\x01\x07\0\x03\x7f\x0c\0\x0b\x0b".as_slice(),
        ),
        // a block takes its result
        fails_in(
            0,
            b"\0asm\x01\0\0\0\x01\x05\x01\x60\0\x01\x7f\x03\x02\x01\0\x0a\x09\x01\x07\0\x02\x7f\x0c\0\x0b\x0b".as_slice(),
        ),
        // an `if` with a result and no `else`
        fails_in(
            0,
            b"\0asm\x01\0\0\0\x01\x06\x01\x60\x01\x7f\x01\x7f\x03\x02\x01\0\x0a\x0b\x01\x09\0\x20\0\x04\x7fA\x01\x0b\x0b".as_slice(),
        ),
        // labels of one arity
        valid(
            b"\0asm\x01\0\0\0\x01\x05\x01\x60\x01\x7f\0\x03\x02\x01\0\x0a\x0d\x01\x0b\0\x02\x40\x20\0\x0e\x01\0\x01\x0b\x0b".as_slice(),
        ),
        // labels of two arities
        fails_in(
            0,
            b"\0asm\x01\0\0\0\x01\x06\x01\x60\x01\x7f\x01\x7f\x03\x02\x01\0\x0a\x11\x01\x0f\0\x02\x40\x20\0\x20\0\x0e\x01\0\x01\x0bA\x01\x0b".as_slice(),
        ),
        // behind `unreachable`
        valid(
            b"\0asm\x01\0\0\0\x01\x05\x01\x60\0\x01\x7e\x03\x02\x01\0\x0a\x06\x01\x04\0\0\x1b\x0b".as_slice(),
        ),
    ];
    assert!(rt; hold(&rt, alloc, &cases));
    Ok(())
}

#[test]
fn functions_that_are_called_are_there(rt: HostRuntime) -> Result<(), Fail> {
    let alloc = rt.alloc();
    let cases = [
        // a function that is not there
        fails_in(
            0,
            b"\0asm\x01\0\0\0\x01\x06\x01\x60\x01\x7f\x01\x7f\x03\x02\x01\0\x0a\x08\x01\x06\0\x20\0\x10\x01\x0b".as_slice(),
        ),
        // a call through a table of funcref
        valid(
            b"\0asm\x01\0\0\0\x01\x06\x01\x60\x01\x7f\x01\x7f\x03\x02\x01\0\x04\x04\x01p\0\x01\x0a\x0b\x01\x09\0\x20\0\x20\0\x11\0\0\x0b".as_slice(),
        ),
        // through one of externref
        fails_in(
            0,
            b"\0asm\x01\0\0\0\x01\x06\x01\x60\x01\x7f\x01\x7f\x03\x02\x01\0\x04\x04\x01o\0\x01\x0a\x0b\x01\x09\0\x20\0\x20\0\x11\0\0\x0b".as_slice(),
        ),
    ];
    assert!(rt; hold(&rt, alloc, &cases));
    Ok(())
}

#[test]
fn names_in_bodies_are_there(rt: HostRuntime) -> Result<(), Fail> {
    let alloc = rt.alloc();
    let cases = [
        // a var global that is set
        valid(
            b"\0asm\x01\0\0\0\x01\x04\x01\x60\0\0\x03\x02\x01\0\x06\x06\x01\x7f\x01A\x05\x0b\x0a\x08\x01\x06\0A\x01\x24\0\x0b".as_slice(),
        ),
        // a const one that is set
        fails_in(
            0,
            b"\0asm\x01\0\0\0\x01\x04\x01\x60\0\0\x03\x02\x01\0\x06\x06\x01\x7f\0A\x05\x0b\x0a\x08\x01\x06\0A\x01\x24\0\x0b".as_slice(),
        ),
        // no memory
        fails_in(
            0,
            b"\0asm\x01\0\0\0\x01\x04\x01\x60\0\0\x03\x02\x01\0\x0a\x07\x01\x05\0\x3f\0\x1a\x0b".as_slice(),
        ),
        // an i32 aligned to 8 bytes
        fails_in(
            0,
            b"\0asm\x01\0\0\0\x01\x06\x01\x60\x01\x7f\x01\x7f\x03\x02\x01\0\x05\x03\x01\0\x01\x0a\x09\x01\x07\0\x20\0\x28\x03\0\x0b".as_slice(),
        ),
        // f32.add of two f64
        fails_in(
            0,
            b"\0asm\x01\0\0\0\x01\x06\x01\x60\x01\x7c\x01\x7c\x03\x02\x01\0\x0a\x09\x01\x07\0\x20\0\x20\0\x92\x0b".as_slice(),
        ),
    ];
    assert!(rt; hold(&rt, alloc, &cases));
    Ok(())
}

/// The header, a type without parameters and results, three functions of it, and what stands before their bodies.
const BEFORE: &[u8; 25] =
    b"\0asm\x01\0\0\0\x01\x04\x01\x60\0\0\x03\x04\x03\0\0\0\x0a\x96\x80\x03\x03";

/// A body that does nothing, so often that it is worth a thread. A faulty one leaves a number.
fn push_long_body(text: &mut Seq<u8>, is_faulty: bool) -> Result<(), OutOfMemory> {
    text.extend_from_slice(b"\x84\x80\x01\0".as_slice())?;
    for _ in 0..256 {
        text.extend_from_slice(&[0x01; 64])?;
    }
    if is_faulty {
        text.extend_from_slice(b"A\x01\x0b".as_slice())
    } else {
        text.extend_from_slice(b"\x01\x01\x0b".as_slice())
    }
}

/// A module of three long bodies, of which these two are faulty.
fn long_module(alloc: Global, first: usize, second: usize) -> Result<Seq<u8>, OutOfMemory> {
    let mut text = Seq::from_slice(alloc, BEFORE.as_slice())?;
    for at in 0..3usize {
        push_long_body(&mut text, at == first || at == second)?;
    }
    Ok(text)
}

/// Whether the first of two faulty bodies is told of a long module. Behind the third there is none.
fn tells_first<R: Threads + Sync>(rt: &R, alloc: Global, first: usize, second: usize) -> bool {
    let Ok(text) = long_module(alloc, first, second) else {
        return false;
    };
    let case = if first < 3 {
        fails_in(first as u32, text.as_slice())
    } else {
        valid(text.as_slice())
    };
    holds(rt, alloc, &case)
}

#[test]
fn several_workers_tell_the_first_body_of_all(rt: HostRuntime) -> Result<(), Fail> {
    let alloc = rt.alloc();
    for (first, second) in [(3, 3), (1, 2)] {
        assert!(rt; tells_first(&rt, alloc, first, second));
    }
    Ok(())
}
