//! The words of `wasmrun`.

use run_words::{RunWordsError, read_words};
use std::alloc::Global;
use std::test::Fail;
use test_kit::texts;
use wl_base::{OutOfMemory, Text};

/// Whether the words ask for this module, this script and so many steps.
fn ask_for(alloc: Global, words: &[Text], module: &str, script: &str, steps: u64) -> bool {
    match read_words(alloc, words) {
        Ok(asked) => asked.module.as_str() == module
            && asked.script.as_str() == script
            && asked.steps == steps,
        Err(_) => false,
    }
}

/// Whether clap refuses the words.
fn are_refused(alloc: Global, words: &[Text]) -> bool {
    match read_words(alloc, words) {
        Ok(_) => false,
        Err(error) => error == RunWordsError::Usage,
    }
}

/// Whether words in both orders ask for the same.
fn are_taken(alloc: Global) -> Result<bool, OutOfMemory> {
    let first = texts(alloc, &["m.wasm", "--script", "s", "--steps=100"])?;
    let second = texts(alloc, &["--steps", "+7", "--script=s", "m.wasm"])?;
    Ok(
        ask_for(alloc, first.as_slice(), "m.wasm", "s", 100)
            && ask_for(alloc, second.as_slice(), "m.wasm", "s", 7),
    )
}

/// Whether no script, too many steps and a second module are refused.
fn refusals(alloc: Global) -> Result<bool, OutOfMemory> {
    let no_script = texts(alloc, &["m.wasm", "--steps=100"])?;
    let too_many = texts(alloc, &["m.wasm", "--script=s", "--steps=1000000001"])?;
    let two = texts(alloc, &["m.wasm", "n.wasm", "--script=s", "--steps=1"])?;
    Ok(
        are_refused(alloc, no_script.as_slice())
            && are_refused(alloc, too_many.as_slice())
            && are_refused(alloc, two.as_slice()),
    )
}

#[test]
fn words_are_read(rt: HostRuntime) -> Result<(), Fail> {
    assert!(rt; are_taken(rt.alloc())?);
    Ok(())
}

#[test]
fn words_are_refused(rt: HostRuntime) -> Result<(), Fail> {
    assert!(rt; refusals(rt.alloc())?);
    Ok(())
}
