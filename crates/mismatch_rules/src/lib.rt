//! Functions that are called by another type than their definition has, in a link with loose calls: what is told of each. All else here
//! is definitions.
#![tactic(auto)]

mod mismatch;

pub use mismatch::Mismatch;
