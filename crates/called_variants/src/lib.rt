//! What is told of functions that are called by another type than their definition has, where a call names them so: an address alone is
//! that of the definition, and nothing is told of it.
#![tactic(auto)]

mod keeping;
mod marks;
mod naming;

pub use keeping::called_only;
