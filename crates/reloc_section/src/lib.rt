//! A section `reloc.`: the places of another section's payload that the linker writes anew, each
//! with its type and the symbol or type that it names (tool conventions, Linking.md, 'Relocation
//! Sections').
#![tactic(auto)]

mod entry;
mod fault;
pub mod kinds;
mod laws;
mod section;
mod short;

pub use entry::{Reloc, reloc_at};
pub use fault::RelocFault;
pub use laws::{relocs_are_steady, relocs_are_unambiguous};
pub use section::{RelocSection, read, relocs_at};
