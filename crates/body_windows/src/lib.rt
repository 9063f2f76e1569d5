//! Relocations meet bodies: the immediates of a function's body that can be a reference, and what
//! the relocations of the code section put in their place (tool conventions, Linking.md, 'Relocation
//! Sections'; WebAssembly Core Specification 2.0, 5.4).
#![tactic(auto)]

mod course;
mod fault;
mod free;
mod immediate;
mod laws;
mod merging;
mod named;
mod opcodes;
mod operand;
mod operands;
mod overlap;
mod quick;
mod reading;
mod scanning;
mod shapes;

pub use fault::{Mismatch, WindowFault};
pub use immediate::{Immediate, ImmediateKind};
pub use laws::{
    bodies_are_in_order, operands_are_of_immediates, references_are_kept, windows_stand_in_bodies,
};
pub use operand::Operand;
pub use operands::{Operands, OperandsRef, Reference};
pub use reading::windows;
pub use reloc_section::{Reloc, RelocSection, kinds, relocs_at};
pub use scanning::scan;
