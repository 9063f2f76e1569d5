//! What the command answers and prints.

use crate::cases::{Case, hold, run, shelf, sink};
use crate::modules::{ASKING, DATA_ALONE};
use std::alloc::Global;
use std::test::Fail;
use std::thread::Threads;
use test_kit::calling_module;
use wasm_exec::{RunFault, RunStatus};
use wl_base::OutOfMemory;

// Of the module whose `f` calls a function that gives 7.
fn seven<'a>(script: &'a [u8], steps: &'a str, text: &'a [u8]) -> Case<'a> {
    Case {
        bytes: calling_module(),
        script,
        steps,
        status: RunStatus::Ran,
        text,
    }
}

fn refused<'a>(bytes: &'a [u8], script: &'a [u8], fault: RunFault) -> Case<'a> {
    Case {
        bytes,
        script,
        steps: "100",
        status: RunStatus::Refused(fault),
        text: b"".as_slice(),
    }
}

#[test]
fn a_call_is_run(rt: HostRuntime) -> Result<(), Fail> {
    let cases = [
        seven(
            b"call f".as_slice(),
            "100",
            b"returned i32:7\nmemory 2\nend\n".as_slice(),
        ),
        seven(
            b"call f\n".as_slice(),
            "4",
            b"returned i32:7\nmemory 2\nend\n".as_slice(),
        ),
        seven(
            b"call f".as_slice(),
            "3",
            b"steps spent\nmemory 2\nend\n".as_slice(),
        ),
        seven(
            b"call f".as_slice(),
            "0",
            b"steps spent\nmemory 2\nend\n".as_slice(),
        ),
        seven(b"".as_slice(), "0", b"memory 2\nend\n".as_slice()),
        seven(
            b"call f i32:1".as_slice(),
            "100",
            b"not called\nmemory 2\nend\n".as_slice(),
        ),
        seven(
            b"call g".as_slice(),
            "100",
            b"not called\nmemory 2\nend\n".as_slice(),
        ),
    ];
    assert!(rt; hold(&rt, rt.alloc(), cases.as_slice()));
    Ok(())
}

#[test]
fn what_isnt_run_is_refused(rt: HostRuntime) -> Result<(), Fail> {
    let call = b"call get".as_slice();
    let pages = b"memory 2\ncall get".as_slice();
    let entries = b"table 3\ncall get".as_slice();
    let cut = b"\0asm\x01\0\0\0\x01\x05\x01\x60".as_slice();
    let cases = [
        refused(b"".as_slice(), call, RunFault::NotModule),
        refused(cut, call, RunFault::NotModule),
        // a fault of the module comes before one of the script, and that before a segment
        refused(b"".as_slice(), b"cal f".as_slice(), RunFault::NotModule),
        refused(&ASKING, b"cal f".as_slice(), RunFault::BadScript(1)),
        refused(&DATA_ALONE, call, RunFault::SegmentBounds(0)),
        // element segments come before data segments
        refused(&ASKING, call, RunFault::SegmentBounds(0)),
        refused(&ASKING, pages, RunFault::SegmentBounds(0)),
        refused(&ASKING, entries, RunFault::SegmentBounds(1)),
    ];
    assert!(rt; hold(&rt, rt.alloc(), cases.as_slice()));
    Ok(())
}

#[test]
fn a_script_says_what_is_imported_and_answered(rt: HostRuntime) -> Result<(), Fail> {
    let script =
        b"# all\n\nmemory 2\ntable 3\nglobal m g i32:9\ncall f i32:3\nanswer 16=05 i32:10\ncall get\ncall slot i32:2\ncall slot i32:0\ncall slot i32:3\ncall size\ncall grow i32:1\ngrow yes\ncall grow i32:1\ngrow no\ncall f i32:3\ntrap\ncall f i32:4\nanswer i32:10\n".as_slice();
    let text =
        b"asked m h i32:3\nreturned i32:15\nreturned i32:9\nreturned i32:9\ntrapped NullEntry\ntrapped TableBounds\nreturned i32:2\nreturned i32:2\nreturned i32:4294967295\nasked m h i32:3\ntrapped HostTrap\nasked m h i32:4\nreturned i32:15\nmemory 3\n00000010 05000000000000000000000000000000\n00010000 41000000000000000000000000000000\nglobal x i32:9\nend\n".as_slice();
    let case = Case {
        bytes: &ASKING,
        script,
        steps: "1000",
        status: RunStatus::Ran,
        text,
    };
    assert!(rt; hold(&rt, rt.alloc(), &[case]));
    Ok(())
}

#[test]
fn an_answer_that_isnt_there_ends_the_run(rt: HostRuntime) -> Result<(), Fail> {
    let text =
        b"asked m h i32:1\nhost spent\nmemory 2\n00010000 41000000000000000000000000000000\nglobal x i32:0\nend\n".as_slice();
    let none = Case {
        bytes: &ASKING,
        script: b"memory 2\ntable 3\ncall f i32:1\ncall get".as_slice(),
        steps: "100",
        status: RunStatus::Ran,
        text,
    };
    let other = Case {
        script: b"memory 2\ntable 3\ncall f i32:1\ngrow yes".as_slice(),
        ..none
    };
    assert!(rt; hold(&rt, rt.alloc(), &[none, other]));
    Ok(())
}

#[test]
fn a_float_is_carried(rt: HostRuntime) -> Result<(), Fail> {
    let case = Case {
        bytes: &ASKING,
        script: b"memory 2\ntable 3\ncall float\ncall get".as_slice(),
        steps: "100",
        status: RunStatus::Ran,
        text: b"carried 67,0\nmemory 2\n00010000 41000000000000000000000000000000\nglobal x i32:0\nend\n".as_slice(),
    };
    assert!(rt; hold(&rt, rt.alloc(), &[case]));
    Ok(())
}

// Whether words are refused, and nothing is printed.
fn are_no_words<R: Threads + Sync>(
    rt: &R,
    alloc: Global,
    words: &[&str],
) -> Result<bool, OutOfMemory> {
    let mut shelf = shelf(alloc, calling_module(), b"call f".as_slice(), &[])?;
    let mut say = sink(alloc, &[])?;
    let status = run(rt, alloc, words, &mut shelf, &mut say)?;
    Ok(status == RunStatus::Usage && say.bytes().is_empty())
}

#[test]
fn words_that_clap_refuses_are_refused(rt: HostRuntime) -> Result<(), Fail> {
    let alloc = rt.alloc();
    assert!(rt; are_no_words(&rt, alloc, &["c.wasm", "--script=s"])?);
    assert!(rt; are_no_words(&rt, alloc, &["c.wasm", "--steps=1"])?);
    assert!(rt; are_no_words(&rt, alloc, &["--help"])?);
    assert!(rt; are_no_words(&rt, alloc, &["c.wasm", "--script=s", "--steps=1000000001"])?);
    Ok(())
}
