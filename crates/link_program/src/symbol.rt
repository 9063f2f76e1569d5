//! Symbols and what they lead to.

use name_meanings::SymbolKind;
use wl_base::InputId;

/// A definition: of an object, by its input, or of the linker, which is input 0.
#[derive(Clone, Copy, Debug, PartialEq, Eq)]
pub struct Definition {
    pub input: InputId,
    /// Its place in the symbol table; of the linker's its number.
    pub place: u32,
    pub kind: SymbolKind,
    /// Of a function or global its place among those that the object defines, of a datum its segment, of the linker's its number.
    pub index: u32,
    /// Of a datum, where it begins in its segment.
    pub offset: u32,
}

/// What a symbol leads to.
#[derive(Clone, Copy, Debug, PartialEq, Eq)]
pub enum Lead {
    /// A definition of the link.
    Here(Definition),
    /// The import of this number among all imports that symbols mean.
    Import(u32),
    /// Null: an undefined WEAK function or datum.
    Null,
    /// Nothing: it is unresolved where it is used.
    Nothing,
}

/// A symbol of an object.
#[derive(Clone, Copy, Debug, PartialEq, Eq)]
pub struct Symbol {
    pub kind: SymbolKind,
    /// The number of its name, where it is an entry of it.
    pub name: Option<u32>,
    pub lead: Lead,
}

/// The winner of a name.
#[derive(Clone, Copy, Debug, PartialEq, Eq)]
pub struct Winner {
    pub definition: Definition,
    /// The number of the name.
    pub name: u32,
    /// The flags of its symbol (Linking.md, "Symbol Table Subsection").
    pub flags: u32,
}
