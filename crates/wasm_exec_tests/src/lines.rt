//! Each kind of line, and each with a fault at a known line.

use crate::cases::{Case, holds};
use std::alloc::Global;
use std::test::Fail;
use std::thread::Threads;
use test_kit::{calling_module, joined};
use wasm_exec::{RunFault, RunStatus};
use wl_base::{OutOfMemory, Seq};

fn good_lines<'a>() -> &'a [u8] {
    b"memory 2\n# no line\n\ntable 1\nglobal m g i32:1\ncall f\nanswer 0=00 i32:1\ngrow yes\n".as_slice()
}

// The good lines with this one behind them, and another good one.
fn script_with(alloc: Global, line: &[u8]) -> Result<Seq<u8>, OutOfMemory> {
    joined(alloc, &[good_lines(), line, b"\ncall f".as_slice()])
}

fn is_good<R: Threads + Sync>(rt: &R, alloc: Global) -> bool {
    let case = Case {
        bytes: calling_module(),
        script: good_lines(),
        steps: "10",
        status: RunStatus::Ran,
        text: b"returned i32:7\nmemory 2\nend\n".as_slice(),
    };
    holds(rt, alloc, &case)
}

// Whether a script is refused at line 9.
fn is_refused<R: Threads + Sync>(rt: &R, alloc: Global, script: &[u8]) -> bool {
    let case = Case {
        bytes: calling_module(),
        script,
        steps: "10",
        status: RunStatus::Refused(RunFault::BadScript(9)),
        text: b"".as_slice(),
    };
    holds(rt, alloc, &case)
}

// Whether a script of good lines isn't one with this line behind them: its fault is told at line 9.
fn is_bad<R: Threads + Sync>(rt: &R, alloc: Global, line: &[u8]) -> bool {
    match script_with(alloc, line) {
        Ok(script) => is_refused(rt, alloc, script.as_slice()),
        Err(OutOfMemory) => false,
    }
}

#[test]
fn good_lines_are_run(rt: HostRuntime) -> Result<(), Fail> {
    assert!(rt; is_good(&rt, rt.alloc()));
    Ok(())
}

#[test]
fn the_first_line_that_is_none_is_told(rt: HostRuntime) -> Result<(), Fail> {
    let lines = [
        b"memory 65537".as_slice(),
        b"memory 2".as_slice(),
        b"memory".as_slice(),
        b"table 10000001".as_slice(),
        b"table 1".as_slice(),
        b"global m g i32:1".as_slice(),
        b"global m g i64:1".as_slice(),
        b"global m h".as_slice(),
        b"global m h i32:4294967296".as_slice(),
        b"global m h i32:1 i32:1".as_slice(),
        b"call".as_slice(),
        b"call f 1".as_slice(),
        b"call  f".as_slice(),
        b"call f ".as_slice(),
        b" call f".as_slice(),
        b"call\tf".as_slice(),
        b"call f\r".as_slice(),
        b"call \\x41".as_slice(),
        b"call f i32:01".as_slice(),
        b"call f i32:+1".as_slice(),
        b"answer 0=0".as_slice(),
        b"answer 0=".as_slice(),
        b"answer 0=0a".as_slice(),
        b"answer 4294967296=00".as_slice(),
        b"answer i32:1 0=00".as_slice(),
        b"trap 1".as_slice(),
        b"grow".as_slice(),
        b"grow maybe".as_slice(),
        b"cal f".as_slice(),
        b" ".as_slice(),
    ];
    let alloc = rt.alloc();
    for line in lines {
        assert!(rt; is_bad(&rt, alloc, line));
    }
    Ok(())
}
