//! The rules by which the sections of an object agree with one another (WebAssembly Core
//! Specification 2.0, sections 2.5, 3.4 and 5.5; tool conventions, Linking.md).
//!
//! The sections were read one by one; `broken_rule` says which rule is the first that they break.
#![tactic(auto)]

mod differ;
mod indexes;
mod metadata;
mod names;
mod placed;
mod relocs;
mod rules;
mod spaces;
mod symbols;
mod windows;

pub use names::name_of;
pub use object_parts::{
    CodeBody, DataPart, Export, FrameFault, GlobalDef, Group, HIDDEN, Import, InitFunc, LOCAL,
    Linking, Member, Mismatch, Operand, Operands, OperandsRef, Parts, PartsFault, Reference, Reloc,
    SectionSpan, SectionStop, SegmentInfo, Stop, Symbol, SymbolKind, UNDEFINED, frame, parts_of,
};
pub use rules::broken_rule;
pub use spaces::{Counts, ImportPlaces, function_types};
pub use windows::{relocs_for, split_before, start_of};
