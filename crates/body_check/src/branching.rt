//! A `br_table`, typed at its bytes: they are gone past to find the last label, which says how many operands are taken,
//! and then each label is asked. So no list of them is made.
ghost use Rattle.std.specs.Prelude.{◌≡◌, List, ℕ, IfOk, IfSome, MatchOption, Ok};
ghost use Rattle.wasm_grammar.specs.Reading.{u32_at, many_at};
ghost use Rattle.valid_rules.specs.declared.types.Shape.TheVariants.{BranchesBy};
ghost use Rattle.valid_bodies.specs.Steps.{step_on};
ghost use Rattle.valid_bodies.specs.Went.{Went};
ghost use Rattle.body_check.specs.Table.{IsTable};
ghost use Rattle.body_check.specs.Labels.{Labelled, all_fit};
ghost use Rattle.body_check.specs.Passing.{Passes, IsUnfit};

use crate::quick::types_quickly;
use crate::table::Table;
use valid_bodies::{Blocks, Context, Effect, cuts, label_arity, label_fits, reads_effect};
use wasm_grammar::{byte_at, u32_at};
use wasm_instr::{LocalRun, skim_at};
use wasm_types::{FuncType, ValType};
use wl_base::OutOfMemory;

/// The `br_table` at the front, where one can be read: how many labels stand before the last one, the bytes from the
/// first of them on, the last one, and the bytes after it.
#[tactic(auto, using(crate::proofs::Labels::labelled))]
fn labels_at(end: usize, bytes: &[u8]) -> Option<(u32, &[u8], u32, &[u8])>
    ensures { IfSome result (λ x. Labelled end bytes.now x.0 x.1.now x.2 x.3.now) }
{
    let Ok((opcode, behind)) = byte_at(end, bytes) else {
        return None
    };
    if opcode != 0x0e {
        return None;
    }
    let Ok((count, labels)) = u32_at(end, behind) else {
        return None
    };
    let Ok((_, mid, rest)) = skim_at(end, bytes) else {
        return None
    };
    match u32_at(end, mid) {
        Err(_) => None,
        Ok((last, _)) => Some((count, labels, last, rest)),
    }
}

/// Whether branches to so many labels at the front take so many operands each, and find them.
fn fit_at(blocks: &Blocks, arity: usize, count: u32, end: usize, labels: &[u8]) -> bool
    ensures { result ≡ all_fit blocks.now arity count end labels.now }
{
    let mut rest = labels;
    for _ in 0..count {
        let Ok((label, after)) = u32_at(end, rest) else {
            return false
        };
        if !label_fits(blocks, arity, label) {
            return false;
        }
        rest = after;
    }
    true
}

/// Types a `br_table` of so many labels at the front of these bytes, and a last one: whether it has a typing.
#[inline(never)]
#[tactic(auto, using(crate::proofs::Labels::takes_nothing, crate::proofs::Labels::last_fits_not, crate::proofs::Labels::fit_not, crate::proofs::Labels::by_table))]
fn branches_at(
    blocks: &mut Blocks,
    end: usize,
    count: u32,
    labels: &[u8],
    last: u32,
) -> Result<bool, OutOfMemory>
    ensures { IfOk result (λ went. (targets mid : List ℕ) → many_at u32_at count end labels.now ≡ Ok (targets, mid) → Went (step_on blocks.old (BranchesBy targets last)) went blocks.new) }
{
    if !reads_effect(blocks, Effect::Takes(ValType::I32))? {
        return Ok(false);
    }
    let arity = label_arity(blocks, last);
    if !label_fits(blocks, arity, last) || !fit_at(blocks, arity, count, end, labels) {
        return Ok(false);
    }
    Ok(cuts(blocks, &[]))
}

/// Types what is quick to type at the front of the code, in the innermost block, and each `br_table` there: the bytes
/// from the first other instruction on; none where one has no typing.
#[tactic(auto, using(crate::proofs::Doing::passes_none))]
pub fn types_plainly<'a>(
    context: &Context,
    kind: &FuncType,
    locals: &[LocalRun],
    table: &Table,
    blocks: &mut Blocks,
    end: usize,
    bytes: &'a [u8],
) -> Result<Option<&'a [u8]>, OutOfMemory>
    requires { IsTable kind.now.params locals.now table.now }
    ensures { IfOk result (λ found. MatchOption found (IsUnfit context.now kind.now locals.now end blocks.old bytes.now)
        (λ rest. Passes context.now kind.now locals.now end blocks.old bytes.now blocks.new rest.now)) }
{
    let mut rest = bytes;
    loop {
        let Some(there) = types_quickly(context, kind, locals, table, blocks, end, rest)? else {
            return Ok(None)
        };
        let Some((count, labels, last, after)) = labels_at(end, there) else {
            return Ok(Some(there))
        };
        if !branches_at(blocks, end, count, labels, last)? {
            return Ok(None);
        }
        rest = after;
    }
}
