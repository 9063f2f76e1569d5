//! Which symbol is unresolved where it is used: a live part refers to it, and it means nothing.
#![tactic(auto)]

pub mod laws;
mod order;
mod piece;
mod search;

pub use search::first_unresolved;
