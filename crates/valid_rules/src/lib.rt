//! When a sequence of instructions has a typing (Core 3.3), and the one reading that decides it
//! (the validation algorithm of Core, appendix A.3).
//!
//! Typing speaks of no index: what an instruction's index names in its context stands in its shape,
//! and where the context doesn't have it the shape is `Untyped`. So a module and an object share
//! one relation and one reading, however their instructions name things.
#![tactic(auto)]

mod laws;
mod types;

pub use laws::reading_decides_typing;
pub use types::{Frame, Opener, Operand, Shape};
