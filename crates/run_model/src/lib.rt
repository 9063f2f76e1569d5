//! Runs: the machine of `run_rules` in code, whose traces are exactly those of the definitions.
//!
//! The code keeps the values of a function on one stack, and blocks as heights on a second
//! (`run_numbers::Layered`), where the definitions keep the values outside a block in its label. A state
//! of the code is seen as a state of the definitions (specs/Views.antt), and each function has the
//! clause that its answer is what the definition of the same name gives. Want of memory alone is free.
#![tactic(auto)]

mod access;
mod begin;
mod branches;
mod bulk;
mod calls;
mod cells;
mod control;
mod ends;
mod frames;
mod grow;
mod host;
mod opcodes;
mod own;
mod session;
mod state;
mod step;
mod turns;
mod values;

pub use session::run;
