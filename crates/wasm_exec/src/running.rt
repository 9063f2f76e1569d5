//! From bytes to the text of a trace.
ghost use Rattle.std.specs.Prelude.{◌≡◌};
ghost use Rattle.run_script.specs.Scripts.{script_of};
ghost use Rattle.wasm_exec.specs.Answer.{answer_of, with_script, text_of};
ghost use Rattle.wasm_exec.specs.Command.{Answers, said_of};

use crate::status::{RunError, RunFault};
use crate::table::with_entries;
use run_machines::{Run, run_module};
use run_rules::Session;
use run_script::{ScriptError, read_script};
use run_text::trace_text;
use std::alloc::Global;
use wasm_module::{Module, ModuleFault};
use wl_base::Seq;

// The text of what a run came to.
fn run_said(alloc: Global, run: &Run) -> Result<Seq<u8>, RunError>
    ensures { Answers result (said_of run.now) }
{
    match run {
        Run::NoModule => Err(RunError::Refused(RunFault::NotModule)),
        Run::Outside(segment) => Err(RunError::Refused(RunFault::SegmentBounds(*segment))),
        Run::Traced(trace) => Ok(trace_text(alloc, trace)?),
    }
}

#[tactic(auto, using(crate::proofs::Said::said_is_text))]
fn run_session(
    alloc: Global,
    session: &Session,
    m: &Module,
    steps: u64,
) -> Result<Seq<u8>, RunError>
    ensures { Answers result (text_of steps session.now m.now) }
{
    let run = run_module(alloc, session, m, steps)?;
    run_said(alloc, &run)
}

fn run_script(alloc: Global, m: Module, script: &[u8], steps: u64) -> Result<Seq<u8>, RunError>
    ensures { Answers result (with_script steps m (script_of script.now)) }
{
    match read_script(alloc, script) {
        Ok(said) => {
            let m = with_entries(alloc, said.entries, m);
            run_session(alloc, &said.session, &m, steps)
        }
        Err(ScriptError::BadScript(line)) => Err(RunError::Refused(RunFault::BadScript(line))),
        Err(ScriptError::OutOfMemory) => Err(RunError::OutOfMemory),
    }
}

/// The text of the trace that these bytes of a module have by these bytes of a script, with so many steps at most.
///
/// # Errors
/// `NotModule` exactly where the bytes spell no module (Core 5.5); else `BadScript(n)` exactly where line n, from 1, is the first that isn't
/// of a script; else `SegmentBounds(k)` exactly where segment k, elements first, is the first that doesn't fit the first table or memory, or
/// has no offset; want of memory.
#[tactic(auto, unfolding(crate::specs::Answer::answer_of))]
pub fn run_text(alloc: Global, bytes: &[u8], script: &[u8], steps: u64) -> Result<Seq<u8>, RunError>
    ensures { Answers result (answer_of steps bytes.now script.now) }
{
    match wasm_module::read(alloc, bytes) {
        Ok(m) => run_script(alloc, m, script, steps),
        Err(ModuleFault::NotModule) => Err(RunError::Refused(RunFault::NotModule)),
        Err(ModuleFault::OutOfMemory) => Err(RunError::OutOfMemory),
    }
}
