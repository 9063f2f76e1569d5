//! Which relocation of live code is not position-independent, so that a shared output can't have it.
#![tactic(auto)]

mod finding;

pub use finding::{Fixed, first_not_pic};
