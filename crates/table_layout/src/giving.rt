//! Giving slots.
ghost use Rattle.wl_base.specs.Answers.{Answers};
ghost use Rattle.table_layout.specs.Slots.{Rises, slots_of};

use crate::Slots;
use std::alloc::Global;
use wl_base::{LayoutError, Seq, What};

/// Gives each taker a slot, one behind the other from `first` on. It is refused with `TableSize`
/// where the end of the slots is above 2^32 - 1.
#[tactic(auto, unfolding(crate::specs::Slots::slots_of))]
pub fn slots(alloc: Global, first: u32, takers: &[u32]) -> Result<Slots, LayoutError>
    requires { Rises takers.now }
    ensures { Answers result (slots_of first takers.now) }
{
    let end = u64::from(first) + takers.len() as u64;
    if end > u64::from(u32::MAX) {
        return Err(LayoutError::Overflow {
            what: What::TableSize,
            needed: end as i64,
        });
    }
    Ok(Slots {
        first,
        takers: Seq::from_slice(alloc, takers)?,
    })
}
