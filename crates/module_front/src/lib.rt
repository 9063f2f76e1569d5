//! The front of a module: all of it but its bodies, of which the bytes are kept where they lie. So who judges
//! a module can read its bodies one by one, by several workers, and never has more than one of them at a time.
//!
//! Sections are read in their order (`sections`), the code as the parts that its bodies are (`parts`), and
//! put together (`reading`).
#![tactic(auto)]

mod parts;
mod reading;
mod sections;

pub use reading::{Front, read_front};
