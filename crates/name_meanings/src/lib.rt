//! What each symbol means, by the rules in their order.
#![tactic(auto)]

mod cells;
mod columns;
mod further;
mod imports;
mod naming;
mod resolution;
mod resolving;

pub use imports::ImportType;
pub use name_entries::{
    Entries, EntryRef, EntryTable, FuncTypeRef, FunctionRef, GlobalDef, ImportPlaces, InitFunc,
    Meaning, Names, Object, ObjectParts, Operand, PairCase, Reference, Reloc, SegmentRef,
    SymbolKind, SymbolRef, TypeRef,
};
pub use resolution::Resolution;
pub use resolving::resolve;
