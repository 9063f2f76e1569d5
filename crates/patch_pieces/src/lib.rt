//! What is written into the windows of the output, in several pieces of which each worker makes one.
#![tactic(auto)]

mod filling;
mod pieces;

pub use filling::fill;
pub use pieces::Pieces;
