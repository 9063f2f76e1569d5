//! Modules as bytes, what a session on them comes to, and its trace as text.

use run_machines::{Run, run_mod};
use run_rules::Trace;
use run_script::read_script;
use run_text::trace_text;
use std::alloc::Global;
use std::test::Fail;

/// What a run comes to.
#[derive(Clone, Copy)]
enum Wanted<'a> {
    /// A trace with this text.
    Traces(&'a [u8]),
    /// The bytes are no module.
    NoModule,
    /// The segment of this number doesn't fit.
    Outside(u64),
}

/// A session on a module.
#[derive(Clone, Copy)]
struct Case<'a> {
    module: &'a [u8],
    script: &'a [u8],
    steps: u64,
    wanted: Wanted<'a>,
}

/// Whether a trace is printed so.
fn is_printed(alloc: Global, trace: &Trace, text: &[u8]) -> bool {
    match trace_text(alloc, trace) {
        Ok(printed) => printed.as_slice() == text,
        Err(_) => false,
    }
}

/// What a session comes to that a script says.
fn outcome(alloc: Global, case: &Case<'_>) -> Option<Run> {
    match read_script(alloc, case.script) {
        Ok(script) => run_mod(alloc, case.module, &script.session, case.steps).ok(),
        Err(_) => None,
    }
}

fn is_wanted(alloc: Global, run: &Run, wanted: Wanted<'_>) -> bool {
    match (run, wanted) {
        (Run::Traced(trace), Wanted::Traces(text)) => is_printed(alloc, trace, text),
        (Run::NoModule, Wanted::NoModule) => true,
        (Run::Outside(segment), Wanted::Outside(number)) => *segment == number,
        _ => false,
    }
}

fn holds(alloc: Global, case: &Case<'_>) -> bool {
    match outcome(alloc, case) {
        Some(run) => is_wanted(alloc, &run, case.wanted),
        None => false,
    }
}

fn hold(alloc: Global, cases: &[Case<'_>]) -> bool {
    for case in cases {
        if !holds(alloc, case) {
            return false;
        }
    }
    true
}

/// `f` calls a function that gives 7: four steps.
const SEVEN: &[u8; 40] =
    b"\0asm\x01\0\0\0\x01\x05\x01\x60\0\x01\x7F\x03\x03\x02\0\0\x07\x05\x01\x01f\0\0\x0A\x0B\x02\x04\0\x10\x01\x0B\x04\0\x41\x07\x0B";

fn seven(steps: u64, text: &[u8]) -> Case<'_> {
    Case {
        module: SEVEN.as_slice(),
        script: b"call f".as_slice(),
        steps,
        wanted: Wanted::Traces(text),
    }
}

/// `f` sets the imported global `m g`, which is imported twice, asks the host function `m h` with what the second
/// import holds, and adds the byte at 16, which is 5. `x` is the second import and `y` a global that begins as it.
const SHARING: &[u8; 115] =
    b"\0asm\x01\0\0\0\x01\x06\x01\x60\x01\x7F\x01\x7F\x02\x15\x03\x01m\x01h\0\0\x01m\x01g\x03\x7F\x01\x01m\x01g\x03\x7F\x01\x03\x02\x01\0\x04\x04\x01\x70\0\x02\x05\x03\x01\0\x01\x06\x06\x01\x7F\x01\x23\0\x0B\x07\x0D\x03\x01f\0\x01\x01x\x03\x01\x01y\x03\x02\x09\x07\x01\0\x41\x01\x0B\x01\x01\x0A\x12\x01\x10\0\x20\0\x24\0\x23\x01\x10\0\x41\0\x2D\0\x10\x6A\x0B\x0B\x07\x01\0\x41\x10\x0B\x01\x05";

fn sharing<'a>(script: &'a [u8], text: &'a [u8]) -> Case<'a> {
    Case {
        module: SHARING.as_slice(),
        script,
        steps: 100,
        wanted: Wanted::Traces(text),
    }
}

fn fails<'a>(module: &'a [u8], wanted: Wanted<'a>) -> Case<'a> {
    Case {
        module,
        script: b"call f".as_slice(),
        steps: 100,
        wanted,
    }
}

#[test]
fn sessions_on_modules_have_their_traces(rt: HostRuntime) -> Result<(), Fail> {
    let cases = [
        seven(4, b"returned i32:7\nmemory 0\nend\n".as_slice()),
        seven(3, b"steps spent\nmemory 0\nend\n".as_slice()),
        sharing(
            b"call f i32:3\nanswer i32:10".as_slice(),
            b"asked m h i32:3\nreturned i32:15\nmemory 1\n00000010 05000000000000000000000000000000\nglobal x i32:3\nglobal y i32:0\nend\n".as_slice(),
        ),
        sharing(
            b"global m g i32:9\ncall f\ncall f i32:3\nanswer 32=FF i32:10".as_slice(),
            b"not called\nasked m h i32:3\nreturned i32:15\nmemory 1\n00000010 05000000000000000000000000000000\n00000020 FF000000000000000000000000000000\nglobal x i32:3\nglobal y i32:9\nend\n".as_slice(),
        ),
    ];
    let holds = hold(rt.alloc(), cases.as_slice());
    assert!(rt; holds);
    Ok(())
}

#[test]
fn modules_without_a_run_are_told(rt: HostRuntime) -> Result<(), Fail> {
    // a byte behind a memory of one page; a slot without a table
    let behind =
        b"\0asm\x01\0\0\0\x05\x03\x01\0\x01\x0B\x0F\x02\0\x41\0\x0B\x01\x05\0\x41\x80\x80\x04\x0B\x01\x05".as_slice();
    let slots = b"\0asm\x01\0\0\0\x09\x07\x01\0\x41\0\x0B\x01\0".as_slice();
    let cases = [
        fails(b"".as_slice(), Wanted::NoModule),
        fails(b"\0asm\x01\0\0\0\x01".as_slice(), Wanted::NoModule),
        fails(behind, Wanted::Outside(1)),
        fails(slots, Wanted::Outside(0)),
    ];
    let holds = hold(rt.alloc(), cases.as_slice());
    assert!(rt; holds);
    Ok(())
}
