//! Bodies that are read and typed in one pass: each of these bytes is no body, or one without a typing, or one that has
//! one. What can't be read is told before what has no typing, wherever the two stand.

use body_check::{Verdict, is_body, judge};
use std::alloc::Global;
use std::test::Fail;
use valid_bodies::Context;
use wasm_types::{FuncType, ValType};
use wl_base::{OutOfMemory, Seq};

/// A context with a function from an i32 to an i32, and a memory.
fn context(alloc: Global) -> Result<Context, OutOfMemory> {
    let mut types = Seq::new(alloc);
    types.push(kind(alloc)?)?;
    let functions = Seq::from_slice(alloc, &[0])?;
    Ok(Context {
        types,
        functions,
        tables: Seq::new(alloc),
        memory: true,
        globals: Seq::new(alloc),
    })
}

/// The type from an i32 to an i32.
fn kind(alloc: Global) -> Result<FuncType, OutOfMemory> {
    Ok(FuncType {
        params: Seq::from_slice(alloc, &[ValType::I32])?,
        results: Seq::from_slice(alloc, &[ValType::I32])?,
    })
}

/// What is told of a body of that function.
fn told(alloc: Global, text: &[u8]) -> Result<Verdict, OutOfMemory> {
    let context = context(alloc)?;
    let kind = kind(alloc)?;
    judge(alloc, &context, &kind, text)
}

/// Whether this is told of a body of that function, and whether it is read the same without its type.
fn is_told(alloc: Global, text: &[u8], verdict: Verdict) -> bool {
    told(alloc, text) == Ok(verdict) && is_body(alloc, text) == Ok(verdict != Verdict::Unread)
}

#[test]
fn bodies_with_a_typing(rt: HostRuntime) -> Result<(), Fail> {
    let alloc = rt.alloc();
    for text in [
        // local.get 0
        b"\x00\x20\x00\x0b".as_slice(),
        // Two runs of locals; a constant of five bytes; local.tee 2; i32.add
        b"\x02\x01\x7e\x02\x7f\x41\x81\x80\x80\x80\x00\x22\x02\x20\x00\x6a\x0b".as_slice(),
        // A call by a padded index; a load
        b"\x00\x20\x00\x10\x80\x80\x80\x80\x00\x28\x02\x04\x0b".as_slice(),
        // A block that gives an i32, with br_if; behind `unreachable` anything is typed
        b"\x00\x02\x7f\x20\x00\x20\x00\x0d\x00\x0b\x1a\x00\x6a\x0b".as_slice(),
    ] {
        assert!(rt; is_told(alloc, text, Verdict::Typed));
    }
    Ok(())
}

#[test]
fn bodies_without_a_typing(rt: HostRuntime) -> Result<(), Fail> {
    let alloc = rt.alloc();
    for text in [
        // Nothing is given
        b"\x00\x0b".as_slice(),
        // An i64 is given
        b"\x00\x42\x00\x0b".as_slice(),
        // No such local; no such function; an alignment that is too great
        b"\x00\x20\x01\x0b".as_slice(),
        b"\x00\x20\x00\x10\x01\x0b".as_slice(),
        b"\x00\x20\x00\x28\x03\x00\x0b".as_slice(),
        // A sum of an i32 and an i64 in a block
        b"\x00\x02\x7f\x41\x00\x42\x00\x6a\x0b\x0b".as_slice(),
    ] {
        assert!(rt; is_told(alloc, text, Verdict::Untyped));
    }
    Ok(())
}

#[test]
fn locals_of_more_runs_than_have_a_place_each(rt: HostRuntime) -> Result<(), Fail> {
    let alloc = rt.alloc();
    // 2^31 locals of i32, none of f64, and one each of i64 and f32: the i64, the f32, and the last i32
    let typed =
        b"\x04\x80\x80\x80\x80\x08\x7f\x00\x7c\x01\x7e\x01\x7d\x20\x81\x80\x80\x80\x08\x50\x1a\x20\x82\x80\x80\x80\x08\x8b\x1a\x20\x80\x80\x80\x80\x08\x0b";
    assert!(rt; is_told(alloc, typed.as_slice(), Verdict::Typed));
    for text in [
        // The i64 as an i32, and the local behind the last
        b"\x04\x80\x80\x80\x80\x08\x7f\x00\x7c\x01\x7e\x01\x7d\x20\x81\x80\x80\x80\x08\x0b".as_slice(),
        b"\x04\x80\x80\x80\x80\x08\x7f\x00\x7c\x01\x7e\x01\x7d\x20\x83\x80\x80\x80\x08\x0b".as_slice(),
    ] {
        assert!(rt; is_told(alloc, text, Verdict::Untyped));
    }
    Ok(())
}

#[test]
fn branches_by_a_table_with_a_typing(rt: HostRuntime) -> Result<(), Fail> {
    let alloc = rt.alloc();
    for text in [
        // Two labels and a last one, to two blocks; the same with padded numbers
        b"\x00\x02\x40\x02\x40\x20\x00\x0e\x02\x00\x01\x00\x0b\x0b\x20\x00\x0b".as_slice(),
        b"\x00\x02\x40\x02\x40\x20\x00\x0e\x82\x80\x00\x80\x80\x80\x80\x00\x81\x00\x80\x00\x0b\x0b\x20\x00\x0b".as_slice(),
        // No label but the last, which takes an i32; what is below it doesn't count
        b"\x00\x20\x00\x20\x00\x0e\x00\x00\x0b".as_slice(),
        b"\x00\x42\x00\x20\x00\x20\x00\x0e\x00\x00\x0b".as_slice(),
        // Two of them behind each other
        b"\x00\x20\x00\x20\x00\x0e\x00\x00\x0e\x01\x00\x00\x0b".as_slice(),
        // Behind `unreachable`, labels of two types: an i32 and an i64
        b"\x00\x02\x7e\x02\x7f\x00\x0e\x01\x00\x01\x0b\x1a\x42\x00\x0b\x1a\x20\x00\x0b".as_slice(),
    ] {
        assert!(rt; is_told(alloc, text, Verdict::Typed));
    }
    Ok(())
}

#[test]
fn branches_by_a_table_without_a_typing(rt: HostRuntime) -> Result<(), Fail> {
    let alloc = rt.alloc();
    for text in [
        // A label that takes nothing beside a last one that takes an i32, and the other way round
        b"\x00\x02\x40\x02\x7f\x20\x00\x20\x00\x0e\x01\x01\x00\x0b\x1a\x0b\x20\x00\x0b".as_slice(),
        b"\x00\x02\x40\x02\x7f\x20\x00\x20\x00\x0e\x01\x00\x01\x0b\x1a\x0b\x20\x00\x0b".as_slice(),
        // The same behind `unreachable`
        b"\x00\x02\x40\x02\x7f\x00\x0e\x01\x01\x00\x0b\x1a\x0b\x20\x00\x0b".as_slice(),
        // A label that takes an i64 in place of the i32 that is there
        b"\x00\x02\x7e\x02\x7f\x20\x00\x20\x00\x0e\x01\x01\x00\x0b\x1a\x42\x00\x0b\x1a\x20\x00\x0b".as_slice(),
        // A label that isn't there, as the first one and as the last
        b"\x00\x20\x00\x20\x00\x0e\x02\x01\x00\x00\x0b".as_slice(),
        b"\x00\x20\x00\x20\x00\x0e\x01\x00\x01\x0b".as_slice(),
        // No slot; one that is an i64; no operand below it
        b"\x00\x0e\x00\x00\x0b".as_slice(),
        b"\x00\x20\x00\x42\x00\x0e\x00\x00\x0b".as_slice(),
        b"\x00\x20\x00\x0e\x00\x00\x0b".as_slice(),
        // An i64 is left behind it
        b"\x00\x20\x00\x20\x00\x0e\x00\x00\x42\x00\x0b".as_slice(),
    ] {
        assert!(rt; is_told(alloc, text, Verdict::Untyped));
    }
    Ok(())
}

#[test]
fn branches_by_a_table_that_cannot_be_read(rt: HostRuntime) -> Result<(), Fail> {
    let alloc = rt.alloc();
    for text in [
        // More labels than there are bytes; no last one
        b"\x00\x20\x00\x20\x00\x0e\x7f\x00\x00\x0b".as_slice(),
        b"\x00\x20\x00\x20\x00\x0e\xff\xff\xff\xff\x0f\x00\x0b".as_slice(),
        b"\x00\x20\x00\x20\x00\x0e\x01\x00".as_slice(),
        // A count, a label and a last label that are too long
        b"\x00\x20\x00\x20\x00\x0e\x80\x80\x80\x80\x80\x00\x00\x0b".as_slice(),
        b"\x00\x20\x00\x20\x00\x0e\x01\xff\xff\xff\xff\x1f\x00\x0b".as_slice(),
        b"\x00\x20\x00\x20\x00\x0e\x00\xff\xff\xff\xff\x1f\x0b".as_slice(),
        // No slot, and then no `end`
        b"\x00\x0e\x00\x00".as_slice(),
    ] {
        assert!(rt; is_told(alloc, text, Verdict::Unread));
    }
    Ok(())
}

#[test]
fn instructions_with_an_effect_of_their_own(rt: HostRuntime) -> Result<(), Fail> {
    let alloc = rt.alloc();
    for text in [
        // `select` of one type; `nop`; an f64; the memory's size, grown
        b"\x00\x20\x00\x20\x00\x20\x00\x1c\x01\x7f\x0b".as_slice(),
        b"\x00\x01\x44\x00\x00\x00\x00\x00\x00\x00\x00\x1a\x3f\x00\x40\x00\x0b".as_slice(),
    ] {
        assert!(rt; is_told(alloc, text, Verdict::Typed));
    }
    for text in [
        // `select` of another type, of none, and of two
        b"\x00\x20\x00\x20\x00\x20\x00\x1c\x01\x7e\x0b".as_slice(),
        b"\x00\x20\x00\x20\x00\x20\x00\x1c\x00\x0b".as_slice(),
        b"\x00\x20\x00\x20\x00\x20\x00\x1c\x02\x7f\x7f\x0b".as_slice(),
    ] {
        assert!(rt; is_told(alloc, text, Verdict::Untyped));
    }
    Ok(())
}

#[test]
fn bytes_that_are_no_body(rt: HostRuntime) -> Result<(), Fail> {
    let alloc = rt.alloc();
    for text in [
        b"".as_slice(),
        // No `end`; a byte behind it
        b"\x00\x20\x00".as_slice(),
        b"\x00\x20\x00\x0b\x01".as_slice(),
        // 2^32 locals
        b"\x02\xff\xff\xff\xff\x0f\x7f\x01\x7f\x20\x00\x0b".as_slice(),
        // `else` outside an `if`; a number that is too long
        b"\x00\x20\x00\x05\x20\x00\x0b".as_slice(),
        b"\x00\x20\x80\x80\x80\x80\x80\x00\x0b".as_slice(),
        // No typing, and then no `end`, or an opcode that isn't linked
        b"\x00\x42\x00\x6a".as_slice(),
        b"\x00\x42\x00\x6a\xd0\x70\x0b".as_slice(),
    ] {
        assert!(rt; is_told(alloc, text, Verdict::Unread));
    }
    Ok(())
}
