//! Entries and types, lent.

use name_rules::{FuncTypeRef, SymbolRef};
use wasm_types::GlobalType;
use wl_base::InputId;

/// A symbol of an object, lent.
#[derive(Clone, Copy, Debug)]
pub struct EntryRef<'a> {
    /// The number of its object among the inputs.
    pub input: InputId,
    /// Its place among the symbols of its object.
    pub place: u32,
    pub symbol: SymbolRef<'a>,
    /// The number of its name, where it is an entry of one.
    pub number: Option<u32>,
    /// Whether it is a definition in a kept part.
    pub defines: bool,
    /// 0 strong, 1 weak.
    pub class: u8,
    /// Of a defined function or global its place among those that the object defines; of a datum its segment.
    pub index: u32,
}

/// The type of a symbol, lent.
#[derive(Clone, Copy, Debug)]
pub enum TypeRef<'a> {
    /// That of a function.
    Function(FuncTypeRef<'a>),
    /// That of a global.
    GlobalVar(GlobalType),
    /// Data, sections and tables have none.
    Untyped,
}
