//! Lists of lists, kept in two pieces of memory whatever their number.
#![tactic(auto)]

mod lists;

pub use lists::{Lists, shrunk, with_room};
