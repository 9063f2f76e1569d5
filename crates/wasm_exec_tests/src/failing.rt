//! Loads and writes that fail.

use crate::cases::{run, shelf, sink, words};
use std::alloc::Global;
use std::test::Fail;
use std::thread::Threads;
use test_kit::calling_module;
use wasm_exec::RunStatus;
use wl_base::OutOfMemory;

// How a run ends and whether it prints, where these calls of the shelf and of the sink fail.
fn ends<R: Threads + Sync>(
    rt: &R,
    alloc: Global,
    loads: &[u32],
    writes: &[u32],
) -> Result<(RunStatus, bool), OutOfMemory> {
    let mut shelf = shelf(alloc, calling_module(), b"call f".as_slice(), loads)?;
    let mut say = sink(alloc, writes)?;
    let status = run(rt, alloc, &words("100"), &mut shelf, &mut say)?;
    let is_held = shelf.held("c.wasm") == Some(calling_module());
    Ok((status, say.bytes().is_empty() && is_held))
}

#[test]
fn each_failing_call_has_its_answer(rt: HostRuntime) -> Result<(), Fail> {
    let alloc = rt.alloc();
    assert_eq!(rt;
        ends(&rt, alloc, &[1], &[])?,
        (RunStatus::ReadFault(0), true)
    );
    assert_eq!(rt;
        ends(&rt, alloc, &[2], &[])?,
        (RunStatus::ReadFault(1), true)
    );
    assert_eq!(rt; ends(&rt, alloc, &[], &[1])?, (RunStatus::WriteFault, true));
    assert_eq!(rt; ends(&rt, alloc, &[3], &[2])?, (RunStatus::Ran, false));
    Ok(())
}

// How a run of these words ends, of which no file is there but `c.wasm` and `s`.
fn of_words<R: Threads + Sync>(
    rt: &R,
    alloc: Global,
    words: &[&str],
) -> Result<RunStatus, OutOfMemory> {
    let mut shelf = shelf(alloc, calling_module(), b"call f".as_slice(), &[])?;
    let mut say = sink(alloc, &[])?;
    run(rt, alloc, words, &mut shelf, &mut say)
}

#[test]
fn files_that_arent_there_are_told(rt: HostRuntime) -> Result<(), Fail> {
    let alloc = rt.alloc();
    let module = of_words(&rt, alloc, &["d.wasm", "--script=t", "--steps=1"])?;
    assert_eq!(rt; module, RunStatus::ReadFault(0));
    let script = of_words(&rt, alloc, &["c.wasm", "--script=t", "--steps=1"])?;
    assert_eq!(rt; script, RunStatus::ReadFault(1));
    Ok(())
}

// After a failed load the shelf isn't called again: of two runs the second meets calls 2 and 3.
fn stops<R: Threads + Sync>(rt: &R, alloc: Global) -> Result<bool, OutOfMemory> {
    let mut shelf = shelf(alloc, calling_module(), b"call f".as_slice(), &[1, 3])?;
    let mut say = sink(alloc, &[])?;
    let first = run(rt, alloc, &words("9"), &mut shelf, &mut say)?;
    let second = run(rt, alloc, &words("9"), &mut shelf, &mut say)?;
    Ok(first == RunStatus::ReadFault(0) && second == RunStatus::ReadFault(1))
}

#[test]
fn nothing_is_loaded_after_a_failed_load(rt: HostRuntime) -> Result<(), Fail> {
    let alloc = rt.alloc();
    assert!(rt; stops(&rt, alloc)?);
    Ok(())
}
