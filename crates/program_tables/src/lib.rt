//! The tables of a program: its symbols with what they lead to, the winners of its names, its kept parts with what each names, and the
//! function types.
#![tactic(auto)]

mod definitions;
mod inits;
mod joining;
mod loose;
mod making;
mod objects;
mod parts;
mod pieces;
mod pushing;
mod symbols;
mod tables;
mod types;
mod view;
mod windows;
mod winners;

pub use link_program::{
    Entries, EntryRef, EntryTable, FuncTypeRef, Home, Lead, LinkError, Meaning, Mode, Names,
    Object, PairCase, Program, Resolution, Symbol, SymbolRef, Tables, TypeRef, add_names,
    asked_names, mode_of, resolve,
};
pub use loose::Loose;
pub use tables::tables_of;
