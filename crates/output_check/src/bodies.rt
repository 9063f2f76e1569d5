//! Bodies that are read from their bytes, judged and given back one by one.
ghost use Rattle.std.specs.Prelude.{◌≡◌, Some, None, MatchOption, map, slice_get, option_and_then};
ghost use Rattle.output_check.specs.Told.{TellsPart, TellsAt, TellsRun, earlier};

use body_check::{Verdict, is_body, judge};
use std::alloc::Global;
use valid_bodies::Context;
use wasm_module::ModuleFault;
use wasm_types::FuncType;
use wl_base::OutOfMemory;

/// What is told of bodies: the first that has no typing, or that one of them is no body, or that memory was refused.
pub type Told = Result<Option<usize>, ModuleFault>;

/// The type of the function at this place, where it is there.
fn kind_at<'a>(context: &'a Context, functions: &[u32], at: usize) -> Option<&'a FuncType>
    ensures { MatchOption result (option_and_then (slice_get context.now.types) (slice_get functions.now at) ≡ None)
        (λ kind. option_and_then (slice_get context.now.types) (slice_get functions.now at) ≡ Some kind.now) }
{
    match functions.get(at) {
        None => None,
        Some(index) => context.types.get(*index as usize),
    }
}

/// Whether the bytes are a body that has a typing, by the type of the function at this place.
fn is_typed(
    alloc: Global,
    context: &Context,
    functions: &[u32],
    at: usize,
    part: &[u8],
) -> Result<bool, ModuleFault>
    ensures { TellsPart context.now (option_and_then (slice_get context.now.types) (slice_get functions.now at)) part.now result }
{
    let Some(kind) = kind_at(context, functions, at) else {
        return match is_body(alloc, part) {
            Ok(true) => Ok(false),
            Ok(false) => Err(ModuleFault::NotModule),
            Err(OutOfMemory) => Err(ModuleFault::OutOfMemory),
        };
    };
    match judge(alloc, context, kind, part) {
        Ok(Verdict::Typed) => Ok(true),
        Ok(Verdict::Untyped) => Ok(false),
        Ok(Verdict::Unread) => Err(ModuleFault::NotModule),
        Err(OutOfMemory) => Err(ModuleFault::OutOfMemory),
    }
}

/// Whether the body at a place has a typing.
#[tactic(auto, using(crate::proofs::OneByOne::part_told, crate::proofs::OneByOne::seen_at))]
fn judged_at(
    alloc: Global,
    context: &Context,
    functions: &[u32],
    parts: &[&[u8]],
    at: usize,
) -> Result<bool, ModuleFault>
    ensures { TellsAt context.now functions.now (map (λ p. p.now) parts.now) at result }
{
    let Some(part) = parts.get(at) else {
        return Err(ModuleFault::OutOfMemory);
    };
    is_typed(alloc, context, functions, at, part)
}

/// The earlier of two places, where the first one that is there is.
pub fn earlier(first: Option<usize>, other: Option<usize>) -> Option<usize>
    ensures { result ≡ earlier first other }
{
    match first {
        None => other,
        first => first,
    }
}

/// The place of the first body from one place to another that has no typing. All of them are read.
#[tactic(auto, using(crate::proofs::Runs::none_yet, crate::proofs::Runs::goes_on, crate::proofs::Runs::comes_to, crate::proofs::Runs::is_done))]
pub fn first_untyped_in(
    alloc: Global,
    context: &Context,
    functions: &[u32],
    parts: &[&[u8]],
    from: usize,
    to: usize,
) -> Told
    ensures { TellsRun context.now functions.now (map (λ p. p.now) parts.now) from to result }
{
    let mut first = None;
    for at in from..to {
        if !judged_at(alloc, context, functions, parts, at)? {
            first = earlier(first, Some(at));
        }
    }
    Ok(first)
}
