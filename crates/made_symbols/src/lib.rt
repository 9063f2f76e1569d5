//! The symbols that the linker makes: of each mode a list, in which a symbol's place is its number.
#![tactic(auto)]

mod mode;
mod roles;
mod table;

pub use mode::Mode;
pub use roles::Role;
pub use table::{STACK_POINTER, changes, class, count, kind, name, role};
