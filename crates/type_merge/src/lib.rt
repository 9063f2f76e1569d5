//! The function types of the output, each once.
#![tactic(auto)]

mod laws;
mod table;

pub use laws::{added_in_turn, numbers_stay};
pub use table::TypeTable;
