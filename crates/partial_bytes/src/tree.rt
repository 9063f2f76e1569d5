//! The object as plain data: all lists are lent, and so are names and the bytes of files.

use link_program::Named;
use linking_section::{InitFunc, Member, SymbolKind};
use wasm_module::Export;
use wasm_types::{ConstExpr, FuncType, GlobalType, Import};

/// By which relocations are made of what windows name.
#[derive(Clone, Copy)]
pub struct Numbers<'a> {
    /// By the place of a symbol among those of all objects, the number of the one that stands for it; 0 where none does.
    pub symbols: &'a [u32],
    /// By the number of a type among the program's, its number in the object.
    pub types: &'a [u32],
}

/// A body or a data segment.
#[derive(Clone, Copy)]
pub struct Part<'a> {
    /// Its bytes, as they stand in a file.
    pub bytes: &'a [u8],
    /// What its windows name, by their places in it. They are emptied where it is written.
    pub named: &'a [Named],
    /// By which its relocations are made, each where it is written.
    pub numbers: &'a Numbers<'a>,
}

/// A defined global.
#[derive(Clone, Copy)]
pub struct GlobalRow<'a> {
    pub kind: GlobalType,
    /// The first value.
    pub value: ConstExpr,
    /// The bytes that spell it in its own object.
    pub bytes: &'a [u8],
}

/// What is said of a data segment.
#[derive(Clone, Copy)]
pub struct InfoRow<'a> {
    pub name: &'a [u8],
    pub align: u32,
    pub flags: u32,
}

/// A symbol.
#[derive(Clone, Copy)]
pub struct SymbolRow<'a> {
    pub kind: SymbolKind,
    pub flags: u32,
    pub name: Option<&'a [u8]>,
    /// The index of what it names, and of a datum's segment.
    pub index: u32,
    /// Where a datum begins in its segment.
    pub offset: u32,
    /// How many bytes a datum has.
    pub size: u32,
}

/// A group.
#[derive(Clone, Copy)]
pub struct GroupRow<'a> {
    pub name: &'a [u8],
    pub members: &'a [Member],
}

/// The object: its lists in the order of their sections. `tree_told` says which object it is.
#[derive(Clone, Copy)]
pub struct Tree<'a> {
    /// The function types, which all else names by their places.
    pub types: &'a [FuncType],
    pub imports: &'a [Import],
    /// The place of each function's type.
    pub functions: &'a [u32],
    pub globals: &'a [GlobalRow<'a>],
    pub exports: &'a [Export],
    pub bodies: &'a [Part<'a>],
    pub segments: &'a [Part<'a>],
    /// One for each segment.
    pub infos: &'a [InfoRow<'a>],
    pub symbols: &'a [SymbolRow<'a>],
    /// The init functions, by the symbols here.
    pub inits: &'a [InitFunc],
    pub groups: &'a [GroupRow<'a>],
}
