//! wasmld: links WebAssembly objects into one module. Here is what knows of the real machine: its words, its files and its standard
//! output; the work is `link_command`.
#![tactic(auto)]

ghost use Rattle.std.specs.Prelude.{◌<◌, ◌^◌, IfOk, length};

mod ahead;
mod driver_shelf;
mod host_files;
mod manual;
mod words;

use ahead::Ahead;
use driver_command::{drive, link_command};
use driver_lines::say_error;
use driver_shelf::DriverShelf;
use driver_words::{Answer, translate};
use host_files::HostFiles;
use host_outside::{FileShelf, Loaded, OutputSink, WordsFault, read_shorter, words_of};
use manual::answer;
use std::alloc::Global;
use std::fs::File;
use std::process::ExitCode;
use std::rt::Files;
use std::thread::Threads;
use std::{env, fs};
use wl_base::{Seq, Text};
use wl_outside::OpenGate;
use words::{LONGEST_NAME, driver_name, line_of};

// The exit status where standard output can't be written.
const WRITE_FAULT: u8 = 4;

// The exit status of every refusal that a compiler driver is told.
const DRIVER_FAULT: u8 = 1;

// The runtime is named here, since what other threads call has to be known whole.
impl HostFiles for HostRuntime {
    fn read_shorter(
        &self,
        alloc: Global,
        name: &str,
        piece: &mut Vec<u8>,
        least_left: u64,
    ) -> Option<Loaded> {
        read_shorter(self, alloc, name, piece, least_left)
    }

    fn open_file(&self, name: &str) -> Option<File> {
        fs::open(self, name).ok()
    }
}

fn main(rt: HostRuntime) -> ExitCode {
    let words = words_of(rt.alloc(), env::args(&rt));
    let mut name = [0; LONGEST_NAME];
    match driver_name(&rt, &mut name) {
        Some(program) => run_driven(&rt, &rt.stderr(), program, words),
        None => run(&rt, words),
    }
}

// The program under its own name.
fn run<R: HostFiles + Files + Threads + Print + AllocGlobal>(
    rt: &R,
    words: Result<Seq<Text>, WordsFault>,
) -> ExitCode
    requires { IfOk words (λ words. length words < 2 ^ 32) }
{
    let words = match words {
        Ok(words) => words,
        Err(fault) => {
            // A line that can't be written changes no status.
            let _ = rt.print(line_of(&fault));
            return ExitCode::from(fault.code());
        }
    };
    if let Some(text) = answer(words.as_slice()) {
        return match rt.print(text) {
            Ok(()) => ExitCode::from(0),
            Err(_) => ExitCode::from(WRITE_FAULT),
        };
    }
    let ahead = Ahead::of_words(rt, rt.alloc(), words.as_slice());
    let mut shelf = FileShelf::new(rt, rt.alloc(), ahead);
    let mut say = OutputSink::new(rt);
    let status = link_command(
        rt,
        rt.alloc(),
        words.as_slice(),
        &mut shelf,
        &mut say,
        &OpenGate,
    );
    ExitCode::from(status.code())
}

// The files that own words name, read ahead.
fn of_answer<R: HostFiles + Threads>(rt: &R, alloc: Global, answer: &Answer) -> Ahead {
    match answer {
        Answer::Links { own, .. } if own.len() <= u32::MAX as usize => {
            Ahead::of_words(rt, alloc, own.as_slice())
        }
        _ => Ahead::nothing(alloc),
    }
}

// The files that a driver's words name, read ahead. For that the words are translated once more.
fn read_ahead<R: HostFiles + Files + Threads>(rt: &R, alloc: Global, words: &[Text]) -> Ahead {
    let mut shelf = DriverShelf::new(rt, alloc, Ahead::nothing(alloc));
    match translate(alloc, &mut shelf, words) {
        Ok(answer) => of_answer(rt, alloc, &answer),
        Err(_stop) => Ahead::nothing(alloc),
    }
}

// The program as the linker of a compiler driver: it tells what is wrong on the standard error.
fn run_driven<R: HostFiles + Files + Threads + Print + AllocGlobal, P: Print>(
    rt: &R,
    err: &P,
    program: &str,
    words: Result<Seq<Text>, WordsFault>,
) -> ExitCode {
    let mut say = OutputSink::new(err);
    let words = match words {
        Ok(words) => words,
        Err(fault) => {
            let _ = say_error(program, fault.text(), &mut say);
            return ExitCode::from(DRIVER_FAULT);
        }
    };
    let ahead = read_ahead(rt, rt.alloc(), words.as_slice());
    let mut shelf = DriverShelf::new(rt, rt.alloc(), ahead);
    let mut out = OutputSink::new(rt);
    let outcome = drive(
        rt,
        rt.alloc(),
        program,
        words.as_slice(),
        &mut shelf,
        &mut out,
        &mut say,
        &OpenGate,
    );
    ExitCode::from(outcome.code())
}
