//! The loaded objects as parts that refer to one another, as data: what the later steps of a link look at.
#![tactic(auto)]

mod asking;
mod error;
mod home;
mod keys;
mod looking;
mod meaning;
mod mode;
mod named;
mod part;
mod program;
mod symbol;

pub use asking::{add_names, asked_names};
pub use error::{LinkError, refuse};
pub use home::Home;
pub use keys::{FunctionKey, GlobalKey, GotKey};
pub use looking::{chunk_number, part_at, row_at, symbol_at};
pub use made_symbols::Mode;
pub use meaning::{cell_meant, function_meant, function_of, index_of};
pub use mode::mode_of;
pub use name_meanings::{
    Entries, EntryRef, EntryTable, FuncTypeRef, FunctionRef, GlobalDef, ImportPlaces, ImportType,
    Meaning, Names, Object, ObjectParts, PairCase, Resolution, SegmentRef, SymbolRef, TypeRef,
    resolve,
};
pub use named::Named;
pub use part::{Content, Part};
pub use program::{Program, Tables};
pub use symbol::{Definition, Lead, Symbol, Winner};
