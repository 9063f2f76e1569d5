//! The bodies of functions in their context.
ghost use Rattle.std.specs.Prelude.{◌≡◌, IfOk};
ghost use Rattle.valid_bodies.specs.Steps.{step_on};
ghost use Rattle.valid_bodies.specs.Went.{Went, accepts, Decides};
ghost use Rattle.valid_bodies.specs.Shapes.{shape, shapes_in, BodyIsTyped};
ghost use Rattle.valid_bodies.specs.First.{IsFirst, IsFirstIn, TypedAt};

use crate::blocks::Blocks;
use crate::frames::reads_effect;
use crate::reading::reads_at;
use crate::shapes::effect_at;
use crate::types::Context;
use std::alloc::Global;
use wasm_instr::{Body, Instr, LocalRun};
use wasm_types::FuncType;
use wl_base::OutOfMemory;

/// One instruction of a function of this type with these locals, in its context: whether it has a typing in the innermost
/// block. Then `blocks` holds what is open behind it; else its contents are of no use. It takes memory for an open block
/// and for operands alone.
///
/// # Errors
/// Want of memory.
#[inline(never)]
pub fn reads_one(
    alloc: Global,
    context: &Context,
    kind: &FuncType,
    locals: &[LocalRun],
    blocks: &mut Blocks,
    instr: &Instr,
) -> Result<bool, OutOfMemory>
    ensures { IfOk result (λ went. Went (step_on blocks.old (shape context.now kind.now locals.now instr.now)) went blocks.new) }
{
    match effect_at(context, kind, locals, instr) {
        Some(effect) => reads_effect(blocks, effect),
        None => reads_at(alloc, context, kind, locals, blocks, instr),
    }
}

/// Whether the reading of a body ends well. The room of the blocks that were open before is used again.
fn reads_body(
    alloc: Global,
    context: &Context,
    kind: &FuncType,
    blocks: &mut Blocks,
    body: &Body,
) -> Result<bool, OutOfMemory>
    ensures { IfOk result (λ so. so ≡ accepts kind.now.results (shapes_in context.now kind.now body.now)) }
{
    let locals = body.locals.as_slice();
    blocks.begin(kind.results.as_slice())?;
    for placed in body.code.as_slice() {
        let went = reads_one(alloc, context, kind, locals, blocks, &placed.instr)?;
        if !went {
            return Ok(false);
        }
    }
    Ok(!blocks.is_open())
}

/// Whether a body of this type has a typing.
#[tactic(auto, using(crate::proofs::Deciding::decides))]
fn is_typed(
    alloc: Global,
    context: &Context,
    kind: &FuncType,
    blocks: &mut Blocks,
    body: &Body,
) -> Result<bool, OutOfMemory>
    ensures { IfOk result (λ so. Decides so (BodyIsTyped context.now kind.now body.now)) }
{
    reads_body(alloc, context, kind, blocks, body)
}

/// Whether the body at a place has a typing, by the type of the function at that place.
fn is_typed_at(
    alloc: Global,
    context: &Context,
    functions: &[u32],
    bodies: &[Body],
    blocks: &mut Blocks,
    at: usize,
) -> Result<bool, OutOfMemory>
    ensures { IfOk result (λ so. Decides so (TypedAt context.now functions.now bodies.now at)) }
{
    let Some(index) = functions.get(at) else {
        return Ok(false);
    };
    let Some(kind) = context.types.get(*index as usize) else {
        return Ok(false);
    };
    match bodies.get(at) {
        None => Ok(false),
        Some(body) => is_typed(alloc, context, kind, blocks, body),
    }
}

/// The place of the first body from one place to another that has no typing.
pub fn first_untyped_in(
    alloc: Global,
    context: &Context,
    functions: &[u32],
    bodies: &[Body],
    from: usize,
    to: usize,
) -> Result<Option<usize>, OutOfMemory>
    ensures { IfOk result (λ found. IsFirstIn context.now functions.now bodies.now from to found) }
{
    let mut blocks = Blocks::new(alloc);
    for at in from..to {
        if !is_typed_at(alloc, context, functions, bodies, &mut blocks, at)? {
            return Ok(Some(at));
        }
    }
    Ok(None)
}

/// The place of the first body that has no typing in its context; `functions` has, for each body,
/// the index of its type among the context's (Core 3.4.1). `None` exactly where all have a typing.
///
/// Each body is read once. Memory is taken for the blocks that are open at once and their operands; the next body uses it again.
///
/// # Errors
/// Want of memory.
#[tactic(auto, using(crate::proofs::Shares::first_of_all))]
pub fn first_untyped(
    alloc: Global,
    context: &Context,
    functions: &[u32],
    bodies: &[Body],
) -> Result<Option<usize>, OutOfMemory>
    ensures { IfOk result (λ found. IsFirst context.now functions.now bodies.now found) }
{
    first_untyped_in(alloc, context, functions, bodies, 0, bodies.len())
}
