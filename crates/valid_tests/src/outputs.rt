//! Outputs that are checked as bytes, whose bodies are read one by one: the answer is that on the module that they
//! are, by one worker or several. Bytes that are no module are refused as a whole, wherever they are none.

use link_plan::Plan;
use output_check::check_output;
use std::alloc::Global;
use std::test::Fail;
use std::thread::Threads;
use wasm_valid::ValidError;
use wl_base::{InvalidAt, OutOfMemory, Seq};
use wl_fan::Workers;

/// A plan that asks for the check, or doesn't.
fn plan(alloc: Global, validate: bool) -> Plan {
    Plan {
        inputs: Seq::new(alloc),
        output: None,
        entry: None,
        exports: Seq::new(alloc),
        exports_if: Seq::new(alloc),
        wanted: Seq::new(alloc),
        export_dynamic: false,
        allow_undefined: false,
        import_memory: false,
        gc: true,
        stack_first: false,
        global_base: None,
        stack_size: 65_536,
        initial_memory: 0,
        max_memory: None,
        threads: 1,
        make_case: None,
        shared: false,
        partial: false,
        validate,
        keep_debug: false,
        like_lld: false,
        loose_calls: false,
        names: false,
        features: None,
    }
}

/// Whether so many workers answer this of the bytes.
fn is_told<R: Threads + Sync>(
    rt: &R,
    alloc: Global,
    text: &[u8],
    count: u32,
    said: Result<(), ValidError>,
) -> bool {
    match Workers::new(count) {
        None => false,
        Some(workers) => check_output(rt, alloc, &plan(alloc, true), text, workers) == said,
    }
}

/// Whether any number of workers answers this.
fn is_answer<R: Threads + Sync>(
    rt: &R,
    alloc: Global,
    text: &[u8],
    said: Result<(), ValidError>,
) -> bool {
    is_told(rt, alloc, text, 1, said)
        && is_told(rt, alloc, text, 2, said)
        && is_told(rt, alloc, text, 64, said)
}

/// What is told of an output of which this part isn't valid.
fn invalid(at: InvalidAt) -> Result<(), ValidError> {
    Err(ValidError::Invalid(at))
}

#[test]
fn an_output_is_judged_as_the_module_that_it_is(rt: HostRuntime) -> Result<(), Fail> {
    let alloc = rt.alloc();
    // the second of two bodies leaves a number
    let text =
        b"\0asm\x01\0\0\0\x01\x04\x01\x60\0\0\x03\x03\x02\0\0\x0a\x09\x02\x02\0\x0b\x04\0A\x01\x0b";
    assert!(rt; is_answer(&rt, alloc, text.as_slice(), invalid(InvalidAt::Body(1))));
    // both do nothing
    let text =
        b"\0asm\x01\0\0\0\x01\x04\x01\x60\0\0\x03\x03\x02\0\0\x0a\x07\x02\x02\0\x0b\x02\0\x0b";
    assert!(rt; is_answer(&rt, alloc, text.as_slice(), Ok(())));
    // the same with an export of a function that isn't there
    let text =
        b"\0asm\x01\0\0\0\x01\x04\x01\x60\0\0\x03\x03\x02\0\0\x07\x05\x01\x01f\0\x02\x0a\x07\x02\x02\0\x0b\x02\0\x0b";
    assert!(rt; is_answer(&rt, alloc, text.as_slice(), invalid(InvalidAt::Module)));
    Ok(())
}

#[test]
fn bytes_that_are_no_module_are_refused_as_a_whole(rt: HostRuntime) -> Result<(), Fail> {
    let alloc = rt.alloc();
    let said = invalid(InvalidAt::Module);
    // the first body leaves a number, and the second is none
    let text =
        b"\0asm\x01\0\0\0\x01\x04\x01\x60\0\0\x03\x03\x02\0\0\x0a\x0a\x02\x04\0A\x01\x0b\x03\0\xff\x0b";
    assert!(rt; is_answer(&rt, alloc, text.as_slice(), said));
    // one function, and two bodies
    let text = b"\0asm\x01\0\0\0\x01\x04\x01\x60\0\0\x03\x02\x01\0\x0a\x07\x02\x02\0\x0b\x02\0\x0b";
    assert!(rt; is_answer(&rt, alloc, text.as_slice(), said));
    // two segments are counted, and one stands there
    let text = b"\0asm\x01\0\0\0\x05\x03\x01\0\x01\x0c\x01\x02\x0b\x06\x01\0A\0\x0b\0";
    assert!(rt; is_answer(&rt, alloc, text.as_slice(), said));
    // a byte behind the last section
    let text = b"\0asm\x01\0\0\0\x01\x04\x01\x60\0\0\x03\x02\x01\0\x0a\x04\x01\x02\0\x0b\x0d";
    assert!(rt; is_answer(&rt, alloc, text.as_slice(), said));
    // nothing at all
    assert!(rt; is_answer(&rt, alloc, b"".as_slice(), said));
    Ok(())
}

#[test]
fn an_output_that_is_not_to_be_checked_passes(rt: HostRuntime) -> Result<(), Fail> {
    let alloc = rt.alloc();
    let Some(workers) = Workers::new(2) else {
        assert!(rt; false);
        return Ok(());
    };
    assert!(rt;
        check_output(&rt, alloc, &plan(alloc, false), b"none".as_slice(), workers) == Ok(())
    );
    Ok(())
}

/// The header, a type without parameters and results, three functions of it, and what stands before their bodies.
const BEFORE: &[u8; 25] =
    b"\0asm\x01\0\0\0\x01\x04\x01\x60\0\0\x03\x04\x03\0\0\0\x0a\x96\x80\x03\x03";

/// A body that does nothing but what it does at its end, so often that it is worth a thread.
fn push_long_body(text: &mut Seq<u8>, end: &[u8; 3]) -> Result<(), OutOfMemory> {
    text.extend_from_slice(b"\x84\x80\x01\0".as_slice())?;
    for _ in 0..256 {
        text.extend_from_slice(&[0x01; 64])?;
    }
    text.extend_from_slice(end.as_slice())
}

/// A module of three long bodies that end so.
fn long_module(alloc: Global, ends: &[&[u8; 3]]) -> Result<Seq<u8>, OutOfMemory> {
    let mut text = Seq::from_slice(alloc, BEFORE.as_slice())?;
    for end in ends {
        push_long_body(&mut text, *end)?;
    }
    Ok(text)
}

/// Whether any number of workers answers this of a module of three long bodies that end so.
fn is_told_of_long<R: Threads + Sync>(
    rt: &R,
    alloc: Global,
    ends: &[&[u8; 3]],
    said: Result<(), ValidError>,
) -> bool {
    match long_module(alloc, ends) {
        Ok(text) => is_answer(rt, alloc, text.as_slice(), said),
        Err(_) => false,
    }
}

#[test]
fn several_workers_answer_as_one_does(rt: HostRuntime) -> Result<(), Fail> {
    let alloc = rt.alloc();
    let good = b"\x01\x01\x0b";
    let untyped = b"A\x01\x0b";
    let unread = b"\x01\xff\x0b";
    assert!(rt; is_told_of_long(&rt, alloc, &[good, good, good], Ok(())));
    assert!(rt;
        is_told_of_long(
            &rt,
            alloc,
            &[good, untyped, untyped],
            invalid(InvalidAt::Body(1))
        )
    );
    // what is no body is told of the whole, before or behind one that has no typing
    assert!(rt;
        is_told_of_long(
            &rt,
            alloc,
            &[untyped, good, unread],
            invalid(InvalidAt::Module)
        )
    );
    assert!(rt;
        is_told_of_long(
            &rt,
            alloc,
            &[unread, untyped, good],
            invalid(InvalidAt::Module)
        )
    );
    Ok(())
}
