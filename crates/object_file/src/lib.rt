//! An object file, read whole and exactly (tool conventions, Linking.md).
//!
//! The definition of what an object is stands in `specs/ObjectOf.antt`: the bytes are cut into
//! sections, each section is spelled whole, and the sections agree with one another.
#![tactic(auto)]

mod building;
mod exports;
mod functions;
mod laws;
mod names;
mod object;
mod reading;
mod segments;

pub use laws::{
    addresses_are_only_read, index_spaces_are_counted, object_is_unambiguous, objects_are_read,
    operands_stand_on_immediates, read_objects_are_sound, read_objects_are_spellable,
};
pub use object::Object;
pub use object_columns::{
    FuncTypeRef, FuncTypes, FunctionRef, Functions, ImportRef, Imports, SegmentRef, Segments,
    SymbolRef, Symbols,
};
pub use object_rules::{
    GlobalDef, Group, HIDDEN, ImportPlaces, InitFunc, LOCAL, Member, Operand, Operands, Reference,
    Reloc, SymbolKind, UNDEFINED,
};
pub use reading::{ObjectError, read_object};
