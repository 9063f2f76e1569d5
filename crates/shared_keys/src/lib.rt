//! What the live parts of a shared output ask for of foreign symbols, and the globals that it has by that.
#![tactic(auto)]

mod called;
mod cells;
mod foreign;
mod globals;
mod slots;

pub use called::called_imports;
pub use globals::globals_listed;
pub use slots::own_functions_of;
