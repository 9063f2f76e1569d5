//! Where live segments stand.
ghost use Rattle.std.specs.Prelude.{◌≡◌, false, slice_index_or};

use link_layout::Placed;

/// Whether the part of a number is a live segment that isn't zero.
#[tactic(auto, using(link_program::proofs::ReadAt::read))]
pub(crate) fn is_solid(placed: &Placed, number: u32) -> bool
    ensures { result ≡ slice_index_or placed.now.solid number false }
{
    match placed.solid.get(number as usize) {
        Some(solid) => *solid,
        None => false,
    }
}

/// The address of the part of a number.
#[tactic(auto, using(link_program::proofs::ReadAt::read))]
pub(crate) fn address_at(placed: &Placed, number: u32) -> u32
    ensures { result ≡ slice_index_or placed.now.addresses number 0 }
{
    match placed.addresses.get(number as usize) {
        Some(address) => *address,
        None => 0,
    }
}
