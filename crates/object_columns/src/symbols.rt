//! Symbols.
ghost use Rattle.std.specs.Prelude.{◌≡◌, ◌++◌, ◌∷◌, [], length, slice_get, option_map, IfOk, OnOk, OnErr};
ghost use Rattle.object_columns.specs.Columns.{symbol_of};
ghost use Rattle.object_columns.specs.Seen.{symbol_seen};

use crate::name::{maybe, split};
use linking_section::SymbolKind;
use std::alloc::Global;
use std::marker::Model;
use wl_base::{OutOfMemory, Seq};
use wl_lists::{Lists, shrunk, with_room};

/// A symbol, lent (Linking.md, 'Linking Metadata Section'). Fields that its kind doesn't have are 0.
#[derive(Clone, Copy, Debug)]
pub struct SymbolRef<'a> {
    /// What it names.
    pub kind: SymbolKind,
    /// The flags, as they stand.
    pub flags: u32,
    /// The name, as UTF-8, where it has one.
    pub name: Option<&'a [u8]>,
    /// The index of the function, global, table or section, and of a datum's segment.
    pub index: u32,
    /// Where a datum begins in its segment, in bytes.
    pub offset: u32,
    /// How many bytes a datum has.
    pub size: u32,
}

/// A symbol without its name.
#[derive(Clone, Copy, Debug)]
pub struct SymbolRow {
    kind: SymbolKind,
    is_named: bool,
    flags: u32,
    index: u32,
    offset: u32,
    size: u32,
}

// A link keeps one for each symbol of its objects.
const _: () = prove!(size_of::<SymbolRow>() == 20);

impl SymbolRow {
    /// The symbol of this name.
    fn with_name<'a>(&self, name: &'a [u8]) -> SymbolRef<'a>
        ensures { symbol_seen result ≡ symbol_of self.now name.now }
    {
        SymbolRef {
            kind: self.kind,
            flags: self.flags,
            name: maybe(self.is_named, name),
            index: self.index,
            offset: self.offset,
            size: self.size,
        }
    }
}

/// A list of symbols, which contracts see as that list.
#[derive(Debug, Drop)]
pub struct Symbols {
    rows: Seq<SymbolRow>,
    /// Their names. One without a name has the empty one here.
    names: Lists<u8>,
}

impl Model for Symbols {
    ghost use Rattle.std.specs.Prelude.{◌≡◌, List, length};
    ghost use Rattle.linking_section.specs.declared.symbol.Symbol.{Symbol};
    ghost use Rattle.object_columns.specs.Columns.{joined, symbol_of};

    ghost Value = { List Symbol };

    ghost view = { λ s. joined symbol_of s.rows s.names };

    ghost invariant = { λ s. length s.rows ≡ length s.names };
}

impl Symbols {
    /// The empty list. It takes no memory.
    pub fn new(alloc: Global) -> Self
        ensures { result ≡ [] }
    {
        Symbols {
            rows: Seq::new(alloc),
            names: Lists::new(alloc),
        }
    }

    /// The empty list, with room for so many symbols, and for so many bytes of names of all of them.
    pub fn with_room(alloc: Global, symbols: usize, names: usize) -> Result<Self, OutOfMemory>
        ensures { IfOk result (λ list. list ≡ []) }
    {
        Ok(Symbols {
            rows: with_room(alloc, symbols)?,
            names: Lists::with_room(alloc, symbols, names)?,
        })
    }

    /// How many symbols there are.
    pub fn len(&self) -> usize
        ensures { result ≡ length self.now }
    {
        self.rows.len()
    }

    /// The symbol at a place, counted from 0; `None` exactly where there is none.
    pub fn get(&self, at: usize) -> Option<SymbolRef<'_>>
        ensures { option_map symbol_seen result ≡ slice_get self.now at }
    {
        let Some(row) = self.rows.get(at) else {
            return None;
        };
        let Some(name) = self.names.get(at) else {
            return None;
        };
        Some(row.with_name(name))
    }

    /// Puts a symbol at the end. Where memory is refused the list is as before.
    pub fn push(&mut self, symbol: SymbolRef<'_>) -> Result<(), OutOfMemory>
        ensures ok { OnOk result (self.new ≡ self.old ++ symbol_seen symbol.entry ∷ []) }
        ensures err { OnErr result (self.new ≡ self.old) }
    {
        let (is_named, name) = split(symbol.name);
        self.names.push(name)?;
        let row = SymbolRow {
            kind: symbol.kind,
            is_named,
            flags: symbol.flags,
            index: symbol.index,
            offset: symbol.offset,
            size: symbol.size,
        };
        match self.rows.push(row) {
            Ok(()) => Ok(()),
            Err(e) => {
                self.names.truncate(self.rows.len());
                Err(e)
            }
        }
    }

    /// The same list in no more memory than it needs.
    pub fn shrunk(self) -> Self
        ensures { result ≡ self }
    {
        Symbols {
            rows: shrunk(self.rows),
            names: self.names.shrunk(),
        }
    }
}
