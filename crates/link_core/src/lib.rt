//! The whole link.
#![tactic(auto)]

mod chosen;
mod driver;
mod joining;
mod prepared;
mod tail;
mod telling;
mod whole;

pub use link_output::LinkError;
pub use mismatch_rules::Mismatch;
pub use whole::{link, link_telling};
