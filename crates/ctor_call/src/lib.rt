//! The body of the function that calls the constructors.
#![tactic(auto)]

mod calls;

pub use calls::body;
