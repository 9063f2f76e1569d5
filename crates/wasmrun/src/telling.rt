//! The line on standard error that tells what is wrong. One that can't be written changes nothing.

use host_outside::WordsFault;
use wasm_exec::{RunFault, RunStatus};

const USAGE: &str =
    "wasmrun: usage: wasmrun MODULE --script FILE --steps N, with N from 0 to 1000000000 (wasmrun --help tells more)\n";

// The text before the number, and the number.
fn parts(fault: RunFault) -> (&'static str, Option<u64>) {
    match fault {
        RunFault::NotModule => ("wasmrun: not a module", None),
        RunFault::BadScript(line) => ("wasmrun: bad script: line ", Some(line)),
        RunFault::SegmentBounds(segment) => ("wasmrun: out of bounds: segment ", Some(segment)),
    }
}

fn tell_refusal<P: Print>(err: &P, fault: RunFault) {
    let (text, number) = parts(fault);
    let _ = err.print(text);
    if let Some(number) = number {
        let _ = err.print(itoa::Buffer::new().format(number));
    }
    let _ = err.print("\n");
}

/// Tells why nothing was run, or why nothing was printed.
pub fn tell<P: Print>(err: &P, status: RunStatus) {
    let line = match status {
        RunStatus::Ran => return,
        RunStatus::Refused(fault) => return tell_refusal(err, fault),
        RunStatus::Usage => USAGE,
        RunStatus::ReadFault(0) => "wasmrun: cannot read the module\n",
        RunStatus::ReadFault(_) => "wasmrun: cannot read the script\n",
        RunStatus::WriteFault => "wasmrun: cannot write the trace\n",
        RunStatus::NoMemory => "wasmrun: out of memory\n",
    };
    let _ = err.print(line);
}

/// Tells why the words can't be had.
pub fn tell_fault<P: Print>(err: &P, fault: &WordsFault) {
    let _ = err.print("wasmrun: ");
    let _ = err.print(fault.text());
    let _ = err.print("\n");
}
