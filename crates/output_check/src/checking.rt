//! The output is read as a module and judged, as a file that somebody else wrote would be: first all that stands outside
//! its bodies, then the bodies, each of which is read, judged and given back before the next.
ghost use Rattle.std.specs.Prelude.{◌≡◌, ◌+◌, ◌<◌, ◌^◌, true, IfOk, IsTrue, length, map};
ghost use Rattle.module_front.specs.Front.{opened};
ghost use Rattle.wasm_module.specs.ModuleReading.{module_of};
ghost use Rattle.wasm_valid.specs.Computed.{Tells};
ghost use Rattle.wasm_valid.specs.Spaces.{a_function, imported, functions_of, context_of};
ghost use Rattle.output_check.specs.Check.{judged, invalid_at, IsValidOutput};
ghost use Rattle.output_check.specs.Verdicts.{JudgesRead, refused};

use crate::sharing::first_untyped_by;
use link_plan::Plan;
use module_front::{Front, read_front};
use std::alloc::Global;
use std::thread::Threads;
use valid_bodies::Context;
use wasm_module::{Module, ModuleFault};
use wasm_valid::{ValidError, context_in};
use wl_base::InvalidAt;
use wl_fan::Workers;

/// More imports, or more functions, than any output has: its bytes are fewer.
const MANY: usize = 1 << 31;

/// What is told of bytes that are no module.
fn refused(e: ModuleFault) -> ValidError
    ensures { result ≡ refused e }
{
    match e {
        ModuleFault::NotModule => ValidError::Invalid(InvalidAt::Module),
        ModuleFault::OutOfMemory => ValidError::OutOfMemory,
    }
}

/// The number of a function that is defined, among all functions.
fn number_of(context: &Context, m: &Module, at: usize) -> u32
    requires context { context.now ≡ context_of m.now }
    requires few { length (functions_of m.now) < 2 ^ 32 }
    requires within { at < length m.now.functions }
    ensures { result ≡ length (imported a_function m.now.imports) + at }
{
    (context.functions.len() - m.functions.len() + at) as u32
}

/// The first fault of a module with this front. All bodies are read and judged, where the rules outside them hold.
#[tactic(auto, using(crate::proofs::Judging::all_typed, crate::proofs::Judging::one_untyped, crate::proofs::Judging::unread, crate::proofs::Judging::outside, crate::proofs::Judging::want_of_memory))]
fn validated<R: Threads + Sync>(
    rt: &R,
    alloc: Global,
    front: &Front,
    workers: Workers,
) -> Result<(), ValidError>
    requires { length front.now.parts ≡ length front.now.outside.functions }
    ensures { JudgesRead result (opened (front.now.outside, map (λ p. p.now) front.now.parts)) }
{
    let m = &front.outside;
    if m.imports.len() >= MANY || m.functions.len() >= MANY {
        return Err(ValidError::OutOfMemory);
    }
    let context = context_in(alloc, m)?;
    let functions = m.functions.as_slice();
    match first_untyped_by(
        rt,
        alloc,
        &context,
        functions,
        front.parts.as_slice(),
        workers,
    ) {
        Ok(None) => Ok(()),
        Ok(Some(at)) => Err(ValidError::Invalid(InvalidAt::Body(number_of(&context, m, at)))),
        Err(e) => Err(refused(e)),
    }
}

/// The verdict on the module that these bytes are.
#[tactic(auto, using(crate::proofs::Judging::by_front, crate::proofs::Judging::no_front))]
fn judged_front<R: Threads + Sync>(
    rt: &R,
    alloc: Global,
    bytes: &[u8],
    workers: Workers,
) -> Result<(), ValidError>
    ensures { JudgesRead result (module_of bytes.now) }
{
    match read_front(alloc, bytes) {
        Ok(front) => validated(rt, alloc, &front, workers),
        Err(e) => Err(refused(e)),
    }
}

/// The first fault of the module that these bytes are.
#[tactic(auto, using(crate::proofs::Passed::is_told, crate::proofs::Passed::is_valid))]
fn judged<R: Threads + Sync>(
    rt: &R,
    alloc: Global,
    bytes: &[u8],
    workers: Workers,
) -> Result<(), ValidError>
    ensures exact { Tells result (judged (module_of bytes.now)) }
    ensures valid { IfOk result (λ passed. IsValidOutput bytes.now) }
{
    judged_front(rt, alloc, bytes, workers)
}

/// Checks the output of a link by the standard's rules of validation, where the plan asks for it: the bytes are read as a module, whose rules
/// outside bodies are judged first, and then each body, by several workers; with one worker no thread is started. It takes the memory of what
/// stands outside the bodies and of one body for each worker, and gives it back.
///
/// # Errors
/// `Invalid` with the first part that isn't valid, exactly where there is one: `Module` also where the bytes are no module. Want of memory.
#[tactic(auto, unfolding(crate::specs::Check::invalid_at))]
pub fn check_output<R: Threads + Sync>(
    rt: &R,
    alloc: Global,
    plan: &Plan,
    bytes: &[u8],
    workers: Workers,
) -> Result<(), ValidError>
    // The answer is the definition's, or want of memory.
    ensures exact { Tells result (invalid_at plan.now bytes.now) }
    // What passes the check is a valid module, by typing as a relation.
    ensures valid { IfOk result (λ passed. IsTrue plan.now.validate → IsValidOutput bytes.now) }
{
    if !plan.validate {
        return Ok(());
    }
    let answer = judged(rt, alloc, bytes, workers);
    answer
}
