//! The section `name`, which tells the names of functions to whoever shows stack traces.
#![tactic(auto)]

pub mod laws;
mod name;
mod writing;

pub use name::FunctionName;
pub use writing::write_names;
