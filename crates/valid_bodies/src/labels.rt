//! Labels that are asked one by one, so that a `br_table` is typed without a list of them.

ghost use Rattle.std.specs.Prelude.{◌≡◌};
ghost use Rattle.valid_bodies.specs.Steps.{label_arity, label_fits};

use crate::blocks::{Blocks, block_at, label_in};
use crate::frames::fits_label;

/// How many operands a branch to this label takes: none where it isn't there.
#[tactic(auto, using(crate::proofs::AtLabels::none_takes, crate::proofs::AtLabels::lacks_takes, crate::proofs::AtLabels::there_takes))]
pub fn label_arity(blocks: &Blocks, label: u32) -> usize
    ensures { result ≡ label_arity blocks.now label }
{
    let Some(block) = blocks.inner else { return 0 };
    match block_at(block, &blocks.around, label) {
        None => 0,
        Some(target) => label_in(&blocks.types, target).len(),
    }
}

/// Whether a branch to this label takes so many operands, and finds them. None is taken.
#[tactic(auto, using(crate::proofs::AtLabels::none_fits, crate::proofs::AtLabels::as_fits))]
pub fn label_fits(blocks: &Blocks, arity: usize, label: u32) -> bool
    ensures { result ≡ label_fits blocks.now arity label }
{
    let Some(block) = blocks.inner else {
        return false
    };
    fits_label(
        &blocks.types,
        &blocks.around,
        &blocks.operands,
        block,
        arity,
        label,
    )
}
