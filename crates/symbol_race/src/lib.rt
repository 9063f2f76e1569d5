//! The race for names: of each name the definition of least rank wins.
#![tactic(auto)]

pub mod laws;
mod ranks;
mod runs;

pub use ranks::rank;
pub use runs::{Winners, race};
