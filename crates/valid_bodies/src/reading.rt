//! An instruction of a module, read in its context. What it takes and gives is looked at where it lies: in the
//! instruction itself (`effects`) or in the context's types. So none of it is copied.

ghost use Rattle.std.specs.Prelude.{◌≡◌, slice_get, IfOk, nat_eq, if◌then◌else◌};
ghost use Rattle.valid_rules.specs.declared.types.Shape.TheVariants.{Typed, Opens, Branches, BranchesIf};
ghost use Rattle.valid_bodies.specs.Meanings.{block_type, in_table, type_at, typed_as};
ghost use Rattle.valid_bodies.specs.Shapes.{as_type, called_through, opener, plain, shape};
ghost use Rattle.valid_bodies.specs.Steps.{step_on};
ghost use Rattle.valid_bodies.specs.Went.{Went};

use crate::blocks::Blocks;
use crate::effects::Effect;
use crate::frames::{
    branches, branches_by, branches_if, closes, cuts, drops, opens, parts, reads, reads_effect,
    selects, uses, uses_slot,
};
use crate::meanings::{type_at, type_through};
use crate::numeric::numeric_effect;
use crate::opcodes;
use crate::shapes::{opener_of, shape_at};
use crate::types::Context;
use std::alloc::Global;
use wasm_instr::{BlockKind, Instr, LocalRun};
use wasm_types::{FuncType, ValType};
use wl_base::OutOfMemory;

/// `call`.
#[tactic(auto, using(crate::proofs::Stepping::untyped_not))]
fn calls(context: &Context, blocks: &mut Blocks, function: u32) -> Result<bool, OutOfMemory>
    ensures { IfOk result (λ went. Went (step_on blocks.old (as_type Typed (typed_as (type_at context.now function)))) went blocks.new) }
{
    match type_at(context, function) {
        None => Ok(false),
        Some(kind) => uses(blocks, kind.params.as_slice(), kind.results.as_slice()),
    }
}

/// `call_indirect`.
#[tactic(auto, using(crate::proofs::Stepping::untyped_not))]
fn calls_through(
    context: &Context,
    blocks: &mut Blocks,
    kind: u32,
    table: u32,
) -> Result<bool, OutOfMemory>
    ensures { IfOk result (λ went. Went (step_on blocks.old (as_type called_through (in_table (slice_get context.now.tables table) (typed_as (slice_get context.now.types kind))))) went blocks.new) }
{
    match type_through(context, kind, table) {
        None => Ok(false),
        Some(kind) => uses_slot(blocks, kind.params.as_slice(), kind.results.as_slice()),
    }
}

/// `block`, `loop` or `if`.
#[tactic(auto, using(crate::proofs::Stepping::untyped_not))]
fn opens_block(
    context: &Context,
    blocks: &mut Blocks,
    op: u8,
    kind: &BlockKind,
) -> Result<bool, OutOfMemory>
    ensures { IfOk result (λ went. Went (step_on blocks.old (as_type (Opens (opener op)) (typed_as (block_type context.now.types kind.now)))) went blocks.new) }
{
    let opener = opener_of(op);
    match kind {
        BlockKind::Empty => opens(blocks, opener, &[], &[]),
        BlockKind::Value(of) => opens(blocks, opener, &[], &[*of]),
        BlockKind::Index(index) => match context.types.get(*index as usize) {
            None => Ok(false),
            Some(found) => opens(
                blocks,
                opener,
                found.params.as_slice(),
                found.results.as_slice(),
            ),
        },
    }
}

/// An instruction without immediates, in a function with these results.
#[tactic(auto, unfolding(crate::specs::Shapes::plain))]
fn reads_plain(blocks: &mut Blocks, results: &[ValType], op: u8) -> Result<bool, OutOfMemory>
    ensures { IfOk result (λ went. Went (step_on blocks.old (plain results.now op)) went blocks.new) }
{
    match op {
        opcodes::UNREACHABLE => Ok(cuts(blocks, &[])),
        opcodes::NOP => reads_effect(blocks, Effect::Nothing),
        opcodes::ELSE => parts(blocks),
        opcodes::END => closes(blocks),
        opcodes::RETURN => Ok(cuts(blocks, results)),
        opcodes::DROP => Ok(drops(blocks)),
        opcodes::SELECT => selects(blocks),
        _ => reads_effect(blocks, numeric_effect(op)),
    }
}

/// `br` or `br_if`.
fn reads_branch(blocks: &mut Blocks, op: u8, label: u32) -> Result<bool, OutOfMemory>
    ensures { IfOk result (λ went. Went (step_on blocks.old (if nat_eq op 0x0c then Branches label else BranchesIf label)) went blocks.new) }
{
    match op {
        opcodes::BR => Ok(branches(blocks, label)),
        _ => branches_if(blocks, label),
    }
}

/// One instruction of a function of this type with these locals, in its context: whether it has a typing in the
/// innermost block. Then `blocks` holds what is open behind it; else its contents are of no use.
///
/// # Errors
/// Want of memory.
#[tactic(auto, using(crate::proofs::Stepping::untyped_not))]
pub fn reads_at(
    alloc: Global,
    context: &Context,
    kind: &FuncType,
    locals: &[LocalRun],
    blocks: &mut Blocks,
    instr: &Instr,
) -> Result<bool, OutOfMemory>
    ensures { IfOk result (λ went. Went (step_on blocks.old (shape context.now kind.now locals.now instr.now)) went blocks.new) }
{
    match instr {
        Instr::Plain(op) => reads_plain(blocks, kind.results.as_slice(), *op),
        Instr::Block { opcode, kind } => opens_block(context, blocks, *opcode, kind),
        Instr::Branch { opcode, label } => reads_branch(blocks, *opcode, *label),
        Instr::BranchTable { labels, last } => Ok(branches_by(blocks, labels.as_slice(), *last)),
        Instr::Call(function) => calls(context, blocks, *function),
        Instr::CallIndirect { kind, table } => calls_through(context, blocks, *kind, *table),
        _ => {
            let shape = shape_at(alloc, context, kind, locals, instr)?;
            reads(blocks, &shape)
        }
    }
}
