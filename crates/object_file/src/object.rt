//! An object as a tree. Every span counts from the object's first byte.

use object_columns::{FuncTypes, Functions, Imports, Segments, Symbols};
use object_rules::{GlobalDef, Group, InitFunc};
use wl_base::{InputId, Seq};

/// An object that can be linked. Its long lists are kept as columns; contracts see them as lists.
#[derive(Debug, Drop)]
pub struct Object {
    /// Its number among the inputs of the link.
    pub input: InputId,
    pub types: FuncTypes,
    pub imports: Imports,
    /// The defined functions; their indexes come behind those of imported ones.
    pub functions: Functions,
    /// The defined globals; their indexes come behind those of imported ones.
    pub globals: Seq<GlobalDef>,
    pub segments: Segments,
    /// The symbols, each with its name: that of the import it stands for, where it has none of its
    /// own. A section symbol has none.
    pub symbols: Symbols,
    pub inits: Seq<InitFunc>,
    pub groups: Seq<Group>,
}
