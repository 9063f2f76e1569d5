//! The reading's steps: what each shape does to the open blocks (Core, appendix A.3). A step answers whether it went.
//! Where it did not, what is left of the blocks is of no use.

ghost use Rattle.std.specs.Prelude.{◌≡◌, [], ◌∷◌, length, IfOk, slice_get, Some, true};
ghost use Rattle.valid_rules.specs.declared.types.Shape.TheVariants.{Drops, Selects, Leaves, Branches, BranchesIf, BranchesBy, Opens, Else, End};
ghost use Rattle.valid_rules.specs.Reading.{arity, closes_as, fit, fits};
ghost use Rattle.valid_bodies.specs.Blocks.{Open, Entered, Left, labels_in};
ghost use Rattle.valid_bodies.specs.Effects.{shape_of};
ghost use Rattle.valid_bodies.specs.Numeric.{to};
ghost use Rattle.valid_bodies.specs.Shapes.{called_through};
ghost use Rattle.valid_bodies.specs.Steps.{step_on};
ghost use Rattle.valid_bodies.specs.Went.{Went};

use crate::blocks::{Block, Blocks, Outer, block_at, label_in, params_in, results_in};
use crate::effects::{Effect, applies};
use crate::layer::Operands;
use crate::operands::{
    chooses, has_all, is_all, moves, moves_under, puts, takes_all, takes_any, takes_asked,
    takes_one,
};
use valid_rules::{Opener, Shape};
use wasm_types::ValType;
use wl_base::{OutOfMemory, Seq};
use wl_stack::Stack;

/// An instruction of this effect.
///
/// # Errors
/// Want of memory.
#[inline(always)]
#[tactic(auto, using(crate::proofs::Stepping::none_open, crate::proofs::Stepping::by_effect, crate::proofs::Keeping::still))]
pub fn reads_effect(blocks: &mut Blocks, effect: Effect) -> Result<bool, OutOfMemory>
    ensures { IfOk result (λ went. Went (step_on blocks.old (shape_of effect)) went blocks.new) }
{
    let Some(block) = blocks.inner else {
        return Ok(false)
    };
    applies(&mut blocks.operands, block.unreachable, effect)
}

/// An instruction that takes these and gives those.
#[tactic(auto, using(crate::proofs::Stepping::none_open, crate::proofs::Stepping::by_type, crate::proofs::Keeping::still))]
pub fn uses(blocks: &mut Blocks, takes: &[ValType], gives: &[ValType]) -> Result<bool, OutOfMemory>
    ensures { IfOk result (λ went. Went (step_on blocks.old (to takes.now gives.now)) went blocks.new) }
{
    let Some(block) = blocks.inner else {
        return Ok(false)
    };
    moves(&mut blocks.operands, block.unreachable, takes, gives)
}

/// A call through a table, which takes the slot on these.
#[tactic(auto, using(crate::proofs::Stepping::none_open, crate::proofs::Stepping::by_type, crate::proofs::Keeping::still))]
pub fn uses_slot(
    blocks: &mut Blocks,
    takes: &[ValType],
    gives: &[ValType],
) -> Result<bool, OutOfMemory>
    ensures { IfOk result (λ went. Went (step_on blocks.old (called_through (record { params = takes.now; results = gives.now }))) went blocks.new) }
{
    let Some(block) = blocks.inner else {
        return Ok(false)
    };
    moves_under(&mut blocks.operands, block.unreachable, takes, gives)
}

/// `drop`.
#[tactic(auto, using(crate::proofs::Stepping::none_open, crate::proofs::Stepping::by_drop, crate::proofs::Stepping::drops_none, crate::proofs::Keeping::still))]
pub fn drops(blocks: &mut Blocks) -> bool
    ensures { Went (step_on blocks.old Drops) result blocks.new }
{
    let Some(block) = blocks.inner else {
        return false
    };
    match takes_any(&mut blocks.operands, block.unreachable) {
        None => false,
        Some(_) => true,
    }
}

/// `select` without types.
#[tactic(auto, using(crate::proofs::Stepping::none_open, crate::proofs::Stepping::by_choice, crate::proofs::Keeping::still))]
pub fn selects(blocks: &mut Blocks) -> Result<bool, OutOfMemory>
    ensures { IfOk result (λ went. Went (step_on blocks.old Selects) went blocks.new) }
{
    let Some(block) = blocks.inner else {
        return Ok(false)
    };
    chooses(&mut blocks.operands, block.unreachable)
}

/// A block behind an instruction that never comes behind itself.
fn dead(block: Block) -> Block
    ensures { result ≡ record block { unreachable = true } }
{
    Block {
        opener: block.opener,
        from: block.from,
        mid: block.mid,
        to: block.to,
        unreachable: true,
    }
}

/// An instruction that takes these and never comes behind itself.
#[tactic(auto, using(crate::proofs::Stepping::none_open, crate::proofs::Stepping::by_leaving, crate::proofs::Stepping::leaves_not, crate::proofs::Keeping::still))]
pub fn cuts(blocks: &mut Blocks, takes: &[ValType]) -> bool
    ensures { Went (step_on blocks.old (Leaves takes.now)) result blocks.new }
{
    let Some(block) = blocks.inner else {
        return false
    };
    if !takes_all(&mut blocks.operands, block.unreachable, takes) {
        return false;
    }
    blocks.operands.clear();
    blocks.inner = Some(dead(block));
    true
}

/// `br`.
#[tactic(auto, using(crate::proofs::Stepping::none_open, crate::proofs::Stepping::branches_nowhere, crate::proofs::Stepping::branches_not, crate::proofs::Stepping::by_branch, crate::proofs::Keeping::still, crate::proofs::Keeping::target_stands))]
pub fn branches(blocks: &mut Blocks, label: u32) -> bool
    ensures { Went (step_on blocks.old (Branches label)) result blocks.new }
{
    let Some(block) = blocks.inner else {
        return false
    };
    let Some(target) = block_at(block, &blocks.around, label) else {
        return false
    };
    let takes = label_in(&blocks.types, target);
    if !takes_all(&mut blocks.operands, block.unreachable, takes) {
        return false;
    }
    blocks.operands.clear();
    blocks.inner = Some(dead(block));
    true
}

/// `br_if`.
#[tactic(auto, using(crate::proofs::Stepping::none_open, crate::proofs::Stepping::branches_if_nowhere, crate::proofs::Stepping::by_branch_if, crate::proofs::Keeping::still, crate::proofs::Keeping::target_stands))]
pub fn branches_if(blocks: &mut Blocks, label: u32) -> Result<bool, OutOfMemory>
    ensures { IfOk result (λ went. Went (step_on blocks.old (BranchesIf label)) went blocks.new) }
{
    let Some(block) = blocks.inner else {
        return Ok(false)
    };
    let Some(target) = block_at(block, &blocks.around, label) else {
        return Ok(false)
    };
    let takes = label_in(&blocks.types, target);
    moves_under(&mut blocks.operands, block.unreachable, takes, takes)
}

/// Whether a branch to this label takes so many operands, and finds them.
#[tactic(auto, using(crate::proofs::Keeping::label_there, crate::proofs::Keeping::label_lacks, crate::proofs::Keeping::target_stands))]
pub fn fits_label(
    types: &Seq<ValType>,
    around: &Stack<Outer>,
    operands: &Operands,
    block: Block,
    arity: usize,
    label: u32,
) -> bool
    requires { Open (Some block) around.now (length types.now) (length operands.now.below) }
    ensures { result ≡ fits block.unreachable operands.now.own arity (slice_get (labels_in types.now block around.now) label) }
{
    match block_at(block, around, label) {
        None => false,
        Some(target) => {
            let takes = label_in(types, target);
            takes.len() == arity && has_all(operands, block.unreachable, takes)
        }
    }
}

/// Whether branches to all of these labels do.
fn fit_labels(
    types: &Seq<ValType>,
    around: &Stack<Outer>,
    operands: &Operands,
    block: Block,
    arity: usize,
    targets: &[u32],
) -> bool
    requires { Open (Some block) around.now (length types.now) (length operands.now.below) }
    ensures { result ≡ fit block.unreachable operands.now.own (labels_in types.now block around.now) arity targets.now }
{
    for target in targets {
        if !fits_label(types, around, operands, block, arity, *target) {
            return false;
        }
    }
    true
}

/// Whether branches to all of these labels and to a last one find what that takes.
#[tactic(auto, using(crate::proofs::Keeping::label_there, crate::proofs::Keeping::label_lacks, crate::proofs::Keeping::target_stands))]
fn fit_with(
    types: &Seq<ValType>,
    around: &Stack<Outer>,
    operands: &Operands,
    block: Block,
    targets: &[u32],
    last: u32,
) -> bool
    requires { Open (Some block) around.now (length types.now) (length operands.now.below) }
    ensures { result ≡ fit block.unreachable operands.now.own (labels_in types.now block around.now) (arity (slice_get (labels_in types.now block around.now) last)) (last ∷ targets.now) }
{
    let Some(target) = block_at(block, around, last) else {
        return false
    };
    let arity = label_in(types, target).len();
    fits_label(types, around, operands, block, arity, last)
        && fit_labels(types, around, operands, block, arity, targets)
}

/// `br_table`.
#[tactic(auto, using(crate::proofs::Stepping::none_open, crate::proofs::Stepping::table_not, crate::proofs::Stepping::table_fits_not, crate::proofs::Stepping::by_table, crate::proofs::Keeping::still))]
pub fn branches_by(blocks: &mut Blocks, targets: &[u32], last: u32) -> bool
    ensures { Went (step_on blocks.old (BranchesBy targets.now last)) result blocks.new }
{
    let Some(block) = blocks.inner else {
        return false
    };
    if !takes_one(&mut blocks.operands, block.unreachable, ValType::I32) {
        return false;
    }
    if !fit_with(
        &blocks.types,
        &blocks.around,
        &blocks.operands,
        block,
        targets,
        last,
    ) {
        return false;
    }
    blocks.operands.clear();
    blocks.inner = Some(dead(block));
    true
}

/// A block opens in another, on what that has left.
fn enter(
    types: &mut Seq<ValType>,
    around: &mut Stack<Outer>,
    operands: &mut Operands,
    block: Block,
    opener: Opener,
    params: &[ValType],
    results: &[ValType],
) -> Result<Block, OutOfMemory>
    ensures { IfOk result (λ inner. Entered opener (record { params = params.now; results = results.now }) types.old around.old operands.old block inner types.new around.new operands.new) }
{
    let from = types.len();
    types.extend_from_slice(params)?;
    let mid = types.len();
    types.extend_from_slice(results)?;
    let height = operands.enter();
    around.push(Outer { block, height })?;
    puts(operands, params)?;
    Ok(Block {
        opener,
        from,
        mid,
        to: types.len(),
        unreachable: false,
    })
}

/// `block`, `loop` or `if`.
#[tactic(auto, using(crate::proofs::Stepping::none_open, crate::proofs::Opening::opens_not, crate::proofs::Opening::by_open, crate::proofs::Opening::open_stands, crate::proofs::Keeping::still))]
pub fn opens(
    blocks: &mut Blocks,
    opener: Opener,
    params: &[ValType],
    results: &[ValType],
) -> Result<bool, OutOfMemory>
    ensures { IfOk result (λ went. Went (step_on blocks.old (Opens opener (record { params = params.now; results = results.now }))) went blocks.new) }
{
    let Some(block) = blocks.inner else {
        return Ok(false)
    };
    if !takes_asked(&mut blocks.operands, block.unreachable, opener, params) {
        return Ok(false);
    }
    blocks.inner = None;
    let inner = enter(
        &mut blocks.types,
        &mut blocks.around,
        &mut blocks.operands,
        block,
        opener,
        params,
        results,
    )?;
    blocks.inner = Some(inner);
    Ok(true)
}

/// `else`.
#[tactic(auto, using(crate::proofs::Stepping::none_open, crate::proofs::Opening::parts_not, crate::proofs::Opening::parts_other, crate::proofs::Opening::by_else, crate::proofs::Keeping::still))]
pub fn parts(blocks: &mut Blocks) -> Result<bool, OutOfMemory>
    ensures { IfOk result (λ went. Went (step_on blocks.old Else) went blocks.new) }
{
    let Some(block) = blocks.inner else {
        return Ok(false)
    };
    let results = results_in(&blocks.types, block);
    if !is_all(&mut blocks.operands, block.unreachable, results) || block.opener != Opener::If {
        return Ok(false);
    }
    let params = params_in(&blocks.types, block);
    puts(&mut blocks.operands, params)?;
    blocks.inner = Some(Block {
        opener: Opener::Block,
        from: block.from,
        mid: block.mid,
        to: block.to,
        unreachable: false,
    });
    Ok(true)
}

/// Whether a block that is over may end without `else`: an `if` where no instructions would do in its place.
fn closes_so(
    operands: &mut Operands,
    opener: Opener,
    params: &[ValType],
    results: &[ValType],
) -> Result<bool, OutOfMemory>
    requires { operands.old.own ≡ [] }
    ensures so { IfOk result (λ so. so ≡ closes_as opener (record { params = params.now; results = results.now })) }
    ensures below { operands.new.below ≡ operands.old.below }
{
    if opener != Opener::If {
        return Ok(true);
    }
    puts(operands, params)?;
    Ok(is_all(operands, false, results))
}

/// A block that is over is closed: its results lie on the operands of the block around it, which is answered.
fn leave(
    types: &mut Seq<ValType>,
    around: &mut Stack<Outer>,
    operands: &mut Operands,
    block: Block,
) -> Result<Option<Block>, OutOfMemory>
    requires { Open (Some block) around.old (length types.old) (length operands.old.below) }
    ensures { IfOk result (λ inner. Left types.old around.old operands.old block inner types.new around.new operands.new) }
{
    let Some(outer) = around.pop() else {
        return Ok(None)
    };
    operands.leave(outer.height);
    puts(operands, results_in(types, block))?;
    types.truncate(block.from);
    Ok(Some(outer.block))
}

/// `end`.
#[tactic(auto, using(crate::proofs::Stepping::none_open, crate::proofs::Opening::ends_not, crate::proofs::Opening::ends_short, crate::proofs::Opening::by_end, crate::proofs::Opening::end_stands, crate::proofs::Keeping::still))]
pub fn closes(blocks: &mut Blocks) -> Result<bool, OutOfMemory>
    ensures { IfOk result (λ went. Went (step_on blocks.old End) went blocks.new) }
{
    let Some(block) = blocks.inner else {
        return Ok(false)
    };
    let params = params_in(&blocks.types, block);
    let results = results_in(&blocks.types, block);
    if !is_all(&mut blocks.operands, block.unreachable, results) {
        return Ok(false);
    }
    if !closes_so(&mut blocks.operands, block.opener, params, results)? {
        return Ok(false);
    }
    blocks.inner = None;
    blocks.inner = leave(
        &mut blocks.types,
        &mut blocks.around,
        &mut blocks.operands,
        block,
    )?;
    Ok(true)
}

/// One instruction: whether it has a typing in the innermost block. Then `blocks` holds what is open behind it; else its
/// contents are of no use.
///
/// # Errors
/// Want of memory.
#[tactic(auto, using(crate::proofs::Stepping::untyped_not))]
pub fn reads(blocks: &mut Blocks, shape: &Shape) -> Result<bool, OutOfMemory>
    ensures { IfOk result (λ went. Went (step_on blocks.old shape.now) went blocks.new) }
{
    match shape {
        Shape::Typed(kind) => uses(blocks, kind.params.as_slice(), kind.results.as_slice()),
        Shape::Drops => Ok(drops(blocks)),
        Shape::Selects => selects(blocks),
        Shape::Leaves(takes) => Ok(cuts(blocks, takes.as_slice())),
        Shape::Branches(label) => Ok(branches(blocks, *label)),
        Shape::BranchesIf(label) => branches_if(blocks, *label),
        Shape::BranchesBy { labels, last } => Ok(branches_by(blocks, labels.as_slice(), *last)),
        Shape::Opens(opener, kind) => opens(
            blocks,
            *opener,
            kind.params.as_slice(),
            kind.results.as_slice(),
        ),
        Shape::Else => parts(blocks),
        Shape::End => closes(blocks),
        Shape::Untyped => Ok(false),
    }
}
