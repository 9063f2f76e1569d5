//! The rules of names: who wins, what symbols mean, and the least case of a clash or a duplicate. The definitions stand in `specs/`, and
//! beside them the types of their answers.
#![tactic(auto)]

mod case;
mod meaning;

pub use case::PairCase;
pub use meaning::Meaning;
pub use object_file::{
    FuncTypeRef, FuncTypes, FunctionRef, Functions, GlobalDef, Group, HIDDEN, ImportPlaces,
    ImportRef, Imports, InitFunc, Member, Object, Operand, Operands, Reference, Reloc, SegmentRef,
    Segments, SymbolKind, SymbolRef, Symbols, UNDEFINED, read_object,
};
