//! Slots of the table of functions.
#![tactic(auto)]

mod giving;
mod taken;

pub use giving::slots;
pub use taken::Slots;
