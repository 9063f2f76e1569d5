//! wasmrun: runs a module by a script and prints its trace. Here is what knows of the real machine: its words, its files, standard output,
//! and standard error, where a line tells what is wrong; the work is `run_command`.
#![tactic(auto)]

mod manual;
mod telling;

use host_outside::{FileShelf, NothingAhead, OutputSink, WordsFault, words_of};
use manual::answer;
use std::env;
use std::process::ExitCode;
use std::rt::Files;
use std::thread::Threads;
use telling::{tell, tell_fault};
use wasm_exec::run_command;
use wl_base::{Seq, Text};

// The exit status where standard output can't be written.
const WRITE_FAULT: u8 = 4;

fn main(rt: HostRuntime) -> ExitCode {
    let words = words_of(rt.alloc(), env::args(&rt));
    run(&rt, &rt.stderr(), words)
}

fn run<R: Files + Threads + Sync + Print + AllocGlobal, P: Print>(
    rt: &R,
    err: &P,
    words: Result<Seq<Text>, WordsFault>,
) -> ExitCode {
    let words = match words {
        Ok(words) => words,
        Err(fault) => {
            tell_fault(err, &fault);
            return ExitCode::from(fault.code());
        }
    };
    if let Some(text) = answer(words.as_slice()) {
        return match rt.print(text) {
            Ok(()) => ExitCode::from(0),
            Err(_) => ExitCode::from(WRITE_FAULT),
        };
    }
    let mut shelf = FileShelf::new(rt, rt.alloc(), NothingAhead);
    let mut say = OutputSink::new(rt);
    let status = run_command(rt, rt.alloc(), words.as_slice(), &mut shelf, &mut say);
    tell(err, status);
    ExitCode::from(status.code())
}
