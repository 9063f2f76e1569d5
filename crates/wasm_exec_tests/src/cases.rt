//! A run of the command over a module and a script.

use std::alloc::Global;
use std::thread::Threads;
use test_kit::{file, shelf_of, texts};
use wasm_exec::{RunStatus, run_command};
use wl_base::{OutOfMemory, Seq};
use wl_outside::{MemShelf, MemSink, Shelf, Sink};

/// A module, a script, how many steps may be taken, and what comes of it.
#[derive(Clone, Copy)]
pub struct Case<'a> {
    pub bytes: &'a [u8],
    pub script: &'a [u8],
    pub steps: &'a str,
    pub status: RunStatus,
    pub text: &'a [u8],
}

/// A shelf of these bytes as `c.wasm` and of this script as `s`, of which the listed calls fail.
pub fn shelf(
    alloc: Global,
    bytes: &[u8],
    script: &[u8],
    failing: &[u32],
) -> Result<MemShelf, OutOfMemory> {
    let mut files = Seq::new(alloc);
    files.push(file(alloc, "c.wasm", bytes)?)?;
    files.push(file(alloc, "s", script)?)?;
    shelf_of(alloc, files, failing)
}

/// A sink of which the listed calls fail.
pub fn sink(alloc: Global, failing: &[u32]) -> Result<MemSink, OutOfMemory> {
    let failing = Seq::from_slice(alloc, failing)?;
    Ok(MemSink::new(alloc, failing))
}

/// How a run of these words ends.
pub fn run<R: Threads + Sync, F: Shelf, E: Sink>(
    rt: &R,
    alloc: Global,
    words: &[&str],
    shelf: &mut F,
    say: &mut E,
) -> Result<RunStatus, OutOfMemory> {
    let words = texts(alloc, words)?;
    Ok(run_command(rt, alloc, words.as_slice(), shelf, say))
}

/// The words for the two files and so many steps.
pub fn words(steps: &str) -> [&str; 5] {
    ["c.wasm", "--script", "s", "--steps", steps]
}

fn holds_or<R: Threads + Sync>(
    rt: &R,
    alloc: Global,
    case: &Case<'_>,
) -> Result<bool, OutOfMemory> {
    let mut shelf = shelf(alloc, case.bytes, case.script, &[])?;
    let mut say = sink(alloc, &[])?;
    let status = run(rt, alloc, &words(case.steps), &mut shelf, &mut say)?;
    Ok(status == case.status && say.bytes() == case.text)
}

/// Whether a case comes to what it should.
pub fn holds<R: Threads + Sync>(rt: &R, alloc: Global, case: &Case<'_>) -> bool {
    match holds_or(rt, alloc, case) {
        Ok(holds) => holds,
        Err(_) => false,
    }
}

/// Whether all do.
pub fn hold<R: Threads + Sync>(rt: &R, alloc: Global, cases: &[Case<'_>]) -> bool {
    for case in cases {
        if !holds(rt, alloc, case) {
            return false;
        }
    }
    true
}
