//! The bytes of the output: an image is measured, one buffer is reserved, and its windows are filled.
#![tactic(auto)]

pub mod laws;
mod measuring;
mod writing;

pub use link_program::{Entries, Home, LinkError, Object, Program, Winner};
pub use measuring::measured;
pub use writing::write;
