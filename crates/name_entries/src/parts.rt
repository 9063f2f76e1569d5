//! What is looked up of an object.
ghost use Rattle.std.specs.Prelude.{◌≡◌, not, ◌&&◌, if◌then◌else◌};
ghost use Rattle.name_rules.specs.object_file.linking_section.Flags.{is_weak, is_undefined};
ghost use Rattle.name_rules.specs.object_file.object_columns.Seen.{symbol_seen};
ghost use Rattle.name_entries.specs.Parts.{has_flag, keeps};

use name_rules::{ImportPlaces, SymbolKind, SymbolRef};
use wl_base::Seq;

/// What is looked up of an object by index.
#[derive(Debug, Drop)]
pub struct ObjectParts {
    /// Where the imports of each kind stand among all imports.
    pub imports: ImportPlaces,
    /// Of each function, by its index, whether it isn't kept; those behind the last one are kept.
    pub dropped_functions: Seq<bool>,
    /// Of each data segment whether it isn't kept; those behind the last one are kept.
    pub dropped_segments: Seq<bool>,
}

/// Whether the part of an index has a flag.
fn has_flag(flags: &Seq<bool>, index: u32) -> bool
    ensures { result ≡ has_flag flags.now index }
{
    match flags.get(index as usize) {
        Some(flag) => *flag,
        None => false,
    }
}

impl ObjectParts {
    /// Whether the part is kept in which a symbol is defined that names this index.
    fn keeps(&self, kind: SymbolKind, index: u32) -> bool
        ensures { result ≡ keeps self.now kind index }
    {
        match kind {
            SymbolKind::Function => !has_flag(&self.dropped_functions, index),
            SymbolKind::Datum => !has_flag(&self.dropped_segments, index),
            SymbolKind::GlobalVar | SymbolKind::Section | SymbolKind::Table => true,
        }
    }
    /// Whether a symbol is a definition in a kept part.
    pub(crate) fn defines(&self, symbol: SymbolRef<'_>) -> bool
        ensures { result ≡ (not (is_undefined (symbol_seen symbol.entry)) && keeps self.now symbol.entry.kind symbol.entry.index) }
    {
        !symbol.is_undefined() && self.keeps(symbol.kind, symbol.index)
    }
}

/// The class of a symbol of an object: 1 where it is weak, else 0.
pub(crate) fn class_of(symbol: SymbolRef<'_>) -> u8
    ensures { result ≡ (if is_weak (symbol_seen symbol.entry) then 1 else 0) }
{
    if symbol.is_weak() { 1 } else { 0 }
}
