//! The view of all loaded objects.
ghost use Rattle.std.specs.Prelude.{◌≡◌, [], Some, None, length, slice_get, slice_index_or, option_map, option_and_then, option_copied, is_some, MatchOption};
ghost use Rattle.link_names.specs.Numbered.{number_seen};
ghost use Rattle.name_rules.specs.object_file.linking_section.declared.symbol.Symbol.{Symbol};
ghost use Rattle.name_rules.specs.object_file.object_columns.Seen.{symbol_seen, import_seen};
ghost use Rattle.name_rules.specs.Entries.{InputSymbol, key_of};
ghost use Rattle.name_entries.specs.View.{rows_of, entry_at};
ghost use Rattle.name_entries.specs.Fits.{FitsObjects};
ghost use Rattle.name_entries.specs.Rows.{type_told, TellsAt};
ghost use Rattle.name_entries.specs.Shown.{type_seen, AreShown, IsEntryBy};

use crate::entry::{EntryRef, TypeRef};
use crate::parts::{ObjectParts, class_of};
use crate::spaces::written_type;
use crate::symbol_rows::{EntryRow, NONE};
use link_names::Names;
use name_rules::{ImportRef, Object, SymbolKind, SymbolRef};
use wl_lists::Lists;

/// The loaded objects, their names' numbers, and what is looked up of each: all by reference.
#[derive(Clone, Copy)]
pub struct Entries<'a> {
    /// The loaded objects, by their inputs.
    pub objects: &'a [Object],
    /// The numbers of their names.
    pub names: &'a Names,
    /// What is looked up of each object.
    pub parts: &'a [ObjectParts],
    /// What is looked up of each symbol.
    pub(crate) rows: &'a Lists<EntryRow>,
}

/// The number of a name, of which a row has this number.
#[inline(always)]
fn number_of(number: u32) -> Option<u32>
    ensures { result ≡ number_seen number }
{
    if number == NONE { None } else { Some(number) }
}

/// The row at a place; `None` exactly where there is none.
#[inline(always)]
fn row_in(rows: &[EntryRow], place: u32) -> Option<&EntryRow>
    ensures { option_copied result ≡ slice_get rows.now place }
{
    rows.get(place as usize)
}

/// The symbol of a row. What the row doesn't have of it is taken from the symbol as its object has it.
#[inline(always)]
fn symbol_of<'a>(row: &EntryRow, plain: Option<SymbolRef<'a>>) -> SymbolRef<'a>
    ensures { (s : Symbol) → option_map symbol_seen plain.entry ≡ Some s → row.now.kind ≡ s.kind → row.now.flags ≡ s.flags
        → row.now.offset ≡ s.offset → symbol_seen result ≡ s }
{
    let (name, index, size) = match plain {
        Some(symbol) => (symbol.name, symbol.index, symbol.size),
        None => (None, 0, 0),
    };
    SymbolRef {
        kind: row.kind,
        flags: row.flags,
        name,
        index,
        offset: row.offset,
        size,
    }
}

/// What the row at a place tells of this symbol.
#[inline(always)]
fn entry_by<'a>(row: &EntryRow, place: u32, symbol: SymbolRef<'a>) -> EntryRef<'a>
    ensures { IsEntryBy row.now place (symbol_seen symbol.entry) result }
{
    EntryRef {
        input: row.input,
        place,
        symbol,
        number: number_of(row.number),
        defines: row.defines,
        class: class_of(symbol),
        index: row.index,
    }
}

/// The type of a symbol of an object, by its row.
fn type_by<'a>(row: &EntryRow, from: &'a Object) -> TypeRef<'a>
    ensures { type_seen result ≡ type_told from.now row.now.type_index row.now.global row.now.kind }
{
    match row.kind {
        SymbolKind::Function => TypeRef::Function(written_type(from, row.type_index)),
        SymbolKind::GlobalVar => TypeRef::GlobalVar(row.global),
        SymbolKind::Datum | SymbolKind::Section | SymbolKind::Table => TypeRef::Untyped,
    }
}

impl<'a> Entries<'a> {
    /// The row of a symbol, by the place of its object among the objects and its place there; `None` exactly where there is none.
    #[inline(always)]
    fn row(&self, object: u32, place: u32) -> Option<&'a EntryRow>
        requires { FitsObjects self.now }
        ensures { MatchOption result (entry_at self.now.objects.now object place ≡ None)
            (λ r. TellsAt self.now.objects.now self.now.names.now.symbols object place r.now) }
    {
        let rows = self.rows.get(object as usize)?;
        row_in(rows, place)
    }

    /// An object, by its place; `None` exactly where there is none.
    #[inline(always)]
    fn object_at(&self, object: u32) -> Option<&'a Object>
        ensures { option_copied result ≡ slice_get self.now.objects.now object }
    {
        self.objects.get(object as usize)
    }

    /// A symbol as its object has it.
    #[inline(always)]
    fn plain_symbol(&self, object: u32, place: u32) -> Option<SymbolRef<'a>>
        ensures { option_map symbol_seen result ≡ option_and_then (λ o. slice_get o.symbols place) (slice_get self.now.objects.now object) }
    {
        let from = self.object_at(object)?;
        from.symbols.get(place as usize)
    }

    /// How many objects there are.
    pub fn count(&self) -> u32
        requires { FitsObjects self.now }
        ensures { result ≡ length self.now.objects.now }
    {
        self.objects.len() as u32
    }

    /// How many symbols an object has, by its place among the objects.
    pub fn symbols(&self, object: u32) -> u32
        requires { FitsObjects self.now }
        ensures { result ≡ length (slice_index_or (rows_of self.now.objects.now) object []) }
    {
        self.names.symbols(object)
    }

    /// A symbol, by the place of its object among the objects and its place there; `None` exactly where there is none.
    #[inline(always)]
    pub fn entry(&self, object: u32, place: u32) -> Option<EntryRef<'a>>
        requires { FitsObjects self.now }
        ensures { AreShown self.now.names.now.names result (entry_at self.now.objects.now object place) }
    {
        let row = self.row(object, place)?;
        let symbol = symbol_of(row, self.plain_symbol(object, place));
        Some(entry_by(row, place, symbol))
    }

    /// The type of a symbol; `None` exactly where there is no such symbol.
    pub fn type_of(&self, object: u32, place: u32) -> Option<TypeRef<'a>>
        requires { FitsObjects self.now }
        ensures { option_map type_seen result ≡ option_map (λ e. e.type) (entry_at self.now.objects.now object place) }
    {
        let row = self.row(object, place)?;
        let from = self.object_at(object)?;
        Some(type_by(row, from))
    }

    /// Whether a symbol stands on an import.
    #[inline(always)]
    pub fn is_imported(&self, object: u32, place: u32) -> bool
        requires { FitsObjects self.now }
        ensures { (e : InputSymbol) → entry_at self.now.objects.now object place ≡ Some e → result ≡ is_some e.import }
    {
        match self.row(object, place) {
            Some(row) => row.import != NONE,
            None => false,
        }
    }

    /// The import that a symbol stands on.
    pub fn import_of(&self, object: u32, place: u32) -> Option<ImportRef<'a>>
        requires { FitsObjects self.now }
        ensures { (e : InputSymbol) → entry_at self.now.objects.now object place ≡ Some e
            → option_map (λ i. key_of e.type (import_seen i)) result ≡ e.import }
    {
        let row = self.row(object, place)?;
        let from = self.object_at(object)?;
        from.imports.get(row.import as usize)
    }
}
