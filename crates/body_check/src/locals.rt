//! The locals that a body declares (Core 5.5.13).
ghost use Rattle.std.specs.Prelude.{◌≡◌};
ghost use Rattle.wasm_instr.specs.wasm_grammar.Fault.{Reads, Gives};
ghost use Rattle.wasm_instr.specs.Bodies.{counted, run_at, runs_at, locals_at};

use std::alloc::Global;
use wasm_grammar::{ReadFault, Stop, place, u32_at};
use wasm_instr::LocalRun;
use wasm_types::plain_val_type_at;
use wl_base::Seq;

/// A count of locals at this place, where it keeps all of them below 2^32.
fn counted(place: usize, before: u32, count: u32) -> Result<u32, Stop>
    ensures { result ≡ counted place before count }
{
    match before.checked_add(count) {
        Some(_) => Ok(count),
        None => Err(Stop::Broken(place)),
    }
}

/// The run of locals at the front, behind so many locals, and the bytes after it.
#[tactic(auto, unfolding(wasm_instr::specs::Bodies::run_at))]
fn run_at(before: u32, end: usize, bytes: &[u8]) -> Result<(LocalRun, &[u8]), Stop>
    ensures { Reads (λ x. (x.0, x.1.now)) result (run_at before end bytes.now) }
{
    let (count, after) = u32_at(end, bytes)?;
    let count = counted(place(end, bytes), before, count)?;
    let (kind, rest) = plain_val_type_at(end, after)?;
    Ok((LocalRun { count, kind }, rest))
}

/// So many runs of locals at the front, and the bytes after them.
fn runs_at(
    alloc: Global,
    count: u32,
    end: usize,
    bytes: &[u8],
) -> Result<(Seq<LocalRun>, &[u8]), ReadFault>
    ensures { Gives (λ x. (x.0, x.1.now)) result (runs_at count 0 end bytes.now) }
{
    let mut runs = Seq::new(alloc);
    let mut rest = bytes;
    let mut before: u32 = 0;
    for _ in 0..count {
        let (run, after) = run_at(before, end, rest)?;
        runs.push(run)?;
        before += run.count;
        rest = after;
    }
    Ok((runs, rest))
}

/// The locals at the front, and the bytes after them.
#[tactic(auto, unfolding(wasm_instr::specs::Bodies::locals_at))]
pub fn locals_at(
    alloc: Global,
    end: usize,
    bytes: &[u8],
) -> Result<(Seq<LocalRun>, &[u8]), ReadFault>
    ensures { Gives (λ x. (x.0, x.1.now)) result (locals_at end bytes.now) }
{
    let (count, rest) = u32_at(end, bytes)?;
    runs_at(alloc, count, end, rest)
}
