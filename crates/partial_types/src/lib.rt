//! The function types of the object that a partial link makes, each once: those of imports, of kept functions, and those that windows of
//! kept functions name.
#![tactic(auto)]

mod adding;
mod types;

pub use partial_imports::{Open, count_of, opens_of};
pub use types::types_of;
