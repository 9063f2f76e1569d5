//! The symbols of the object that a partial link makes: which symbols of the loaded objects stand there, and under which numbers.
//!
//! A name stands once: at its winner's place where an object defines it, else at its least entry, where anything refers to it. So first
//! one pass each over winners, windows and symbols fills columns by the number of a name (`winners`, `windows`, `columns`); a second
//! pass over the symbols then picks those that stand, by these columns alone (`standing`). Nothing is kept of a symbol but its numbers.
#![tactic(auto)]

mod columns;
mod facts;
pub mod laws;
mod standing;
mod windows;
mod winners;

pub use columns::Column;
pub use facts::{At, Fact, Spot};
pub use link_program::{
    Content, Entries, FuncTypeRef, FunctionRef, GlobalDef, LinkError, Named, Names, Object,
    Program, SegmentRef, Symbol, Tables, TypeRef, part_at, refuse, row_at,
};
pub use standing::{Sight, Standing, sight_of, standing_of};
