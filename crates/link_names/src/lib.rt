//! The names of a link, each with a number. A name is looked up once for each symbol and group that has it; what comes after goes by
//! numbers.
#![tactic(auto)]

mod build;
mod names;

pub use names::Names;
