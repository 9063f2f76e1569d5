//! Work by several workers: jobs that are divided among them, and lists of lists of which each makes a piece.
#![tactic(auto)]

mod ranges;
mod rows;

pub use ranges::Ranges;
pub use rows::Rows;
