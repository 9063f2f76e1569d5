//! The object that a partial link makes of a program, or the fault that refuses it.
//!
//! First all is found that later parts look up by number: which symbols stand in the object, which parts are kept, which names stay open
//! (`found`). Then what is no part of a file is made: by types (`typed`), by symbols (`named`), by parts (`held`). Rows that lend names and
//! bytes (`rows`) make the tree of it (`whole`), which is measured and written (`writing`).
#![tactic(auto)]

mod found;
mod held;
pub mod laws;
mod named;
mod relink;
mod rows;
mod typed;
mod whole;
mod writing;

pub use relink::partial;
