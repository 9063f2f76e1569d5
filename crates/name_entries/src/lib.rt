//! The symbols of the loaded objects as entries of names: each with the number of its name, its type, its import, and whether it
//! defines the name, all found in constant time.
#![tactic(auto)]

mod dropping;
mod entry;
mod lookups;
mod making;
mod parts;
mod pieces;
mod spaces;
mod symbol_rows;
mod table;

pub use entry::{EntryRef, TypeRef};
pub use link_names::Names;
pub use lookups::Entries;
pub use name_rules::{
    FuncTypeRef, FuncTypes, FunctionRef, Functions, GlobalDef, HIDDEN, ImportPlaces, ImportRef,
    Imports, InitFunc, Meaning, Object, Operand, Operands, PairCase, Reference, Reloc, SegmentRef,
    Segments, SymbolKind, SymbolRef, Symbols, UNDEFINED, read_object,
};
pub use parts::ObjectParts;
pub use table::EntryTable;
