//! The bodies of functions, read and typed in one pass (Core 5.5.13 and 3.4.1).
//!
//! Each instruction is typed as soon as it is read, and nothing of it is kept: no list of a body's instructions is
//! made, nor one of the labels of a `br_table` (`branching`). A body that can't be read is told before one that has no
//! typing, so where typing comes to nothing the rest is still skimmed (`skimming`).
#![tactic(auto)]

mod branching;
mod locals;
mod opcodes;
mod quick;
mod skimming;
mod table;
mod typing;
mod verdict;

pub use skimming::is_body;
pub use typing::judge;
pub use verdict::Verdict;
