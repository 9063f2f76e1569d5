//! The race for COMDAT groups: of each group the least input that has it wins.
#![tactic(auto)]

mod runs;

pub use runs::{ComdatWinners, pick};
