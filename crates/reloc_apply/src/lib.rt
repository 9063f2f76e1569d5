//! The windows of the output: what is written into each, and the filling of all of them by many
//! workers at once.
//!
//! Linking.md, "Relocation Sections": each relocation names a place in the code or the data, and its
//! value is spelled there in a fixed number of bytes, so that the bytes around it stay where they are.
#![tactic(auto)]

mod cuts;
mod filling;
pub mod laws;
mod sharing;
mod values_each;
mod window;
mod writing;

pub use filling::fill;
pub use values_each::values;
pub use window::{Form, Patch, Patches, Window};
