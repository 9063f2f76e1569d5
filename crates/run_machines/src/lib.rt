//! The two machines over whole programs: `run_mod` runs a module that is given as bytes, and `run_sym` runs
//! loaded objects with nothing linked. Each gives exactly the trace that `run_rules` defines of its program,
//! for every session and number of steps; want of memory alone is free.
#![tactic(auto)]

mod bytes;
mod first;
mod outcome;
mod sym;

pub use bytes::{run_mod, run_module};
pub use outcome::Run;
pub use sym::{SymCell, SymSegment, SymWorld, run_sym};
