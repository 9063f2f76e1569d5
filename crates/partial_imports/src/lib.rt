//! The names that no object of a partial link defines: they stay open in the object that is made, and stand on imports there.
#![tactic(auto)]

mod opens;

pub use opens::{Open, count_of, opens_of};
pub use partial_symbols::{
    At, Content, Entries, FuncTypeRef, Named, Program, Tables, TypeRef, part_at, row_at,
};
