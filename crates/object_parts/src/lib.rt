//! What the sections of an object tell, each section by itself (WebAssembly Core Specification 2.0,
//! section 5.5; tool conventions, Linking.md).
//!
//! The sections are read in file order, and the first that isn't spelled whole ends the reading.
//! Whether they agree with one another is not judged here.
#![tactic(auto)]

mod adding;
mod code;
mod custom;
mod data;
mod early;
mod elements;
mod globals;
mod imports;
mod kind;
mod laws;
mod parts;
mod placed;
mod reading;

pub use body_windows::{
    Mismatch, Operand, Operands, OperandsRef, Reference, Reloc, RelocSection, kinds,
};
pub use code::split_at_place;
pub use custom::has_id;
pub use kind::{CustomKind, SectionKind};
pub use laws::sections_are_steady;
pub use linking_section::{
    Group, HIDDEN, InitFunc, LOCAL, Linking, Member, SegmentInfo, Symbol, SymbolKind, UNDEFINED,
    member_kinds,
};
pub use parts::{CodeBody, DataPart, GlobalDef, Parts};
pub use reading::{PartsFault, SectionStop, parts_of};
pub use wasm_grammar::Stop;
pub use wasm_instr::opcodes::GLOBAL_GET;
pub use wasm_module::{
    Element, Export, FrameFault, FuncType, Import, ImportKind, SectionSpan, frame,
};
