//! What is looked up of a link's numbers when sections are written that name functions, slots and globals from outside: the number of one,
//! where the output has it (`finding`), and how many functions an object imports, from which its own are counted (`counting`).
#![tactic(auto)]

mod counting;
mod finding;

pub use counting::imported_functions;
pub use finding::{function_at, global_at, slot_at};
