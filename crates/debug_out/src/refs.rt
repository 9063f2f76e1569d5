//! Sections, lent.

use object_file::Symbols;

/// A custom section, lent.
#[derive(Clone, Copy)]
pub struct CustomRef<'a> {
    /// Its place among all sections.
    pub at: u32,
    pub name: &'a [u8],
    /// What stands behind the name.
    pub content: &'a [u8],
}

/// What holds relocations for one section, lent.
#[derive(Clone, Copy)]
pub enum Payloads<'a> {
    Nothing,
    One(&'a [u8]),
    More,
}

/// A debug section, lent.
#[derive(Clone, Copy)]
pub struct DebugRef<'a> {
    /// The place of its object among the loaded ones.
    pub object: u32,
    /// The symbols of the object.
    pub symbols: &'a Symbols,
    /// Its place among all sections of the object.
    pub at: u32,
    pub name: &'a [u8],
    /// What stands behind the name.
    pub content: &'a [u8],
    /// The payload of the section of its relocations; empty where there is none.
    pub relocs: &'a [u8],
}
