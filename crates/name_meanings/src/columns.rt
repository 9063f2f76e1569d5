//! What the rules ask of the references of each name, by the name's number.
ghost use Rattle.std.specs.Prelude.{◌≡◌, ◌++◌, ◌∷◌, ◌&&◌, ◌||◌, not, false, [], List, Some, None, length, slice_index_or, IfOk};
ghost use Rattle.name_entries.specs.wl_base.Choice.{given};
ghost use Rattle.name_entries.specs.linking_section.Flags.{is_weak, is_explicit};
ghost use Rattle.name_entries.specs.object_columns.Seen.{symbol_seen};
ghost use Rattle.name_entries.specs.name_rules.Entries.{InputSymbol};
ghost use Rattle.name_entries.specs.View.{rows_of, entry_at};
ghost use Rattle.name_entries.specs.Fits.{FitsObjects};
ghost use Rattle.name_meanings.specs.Columns.{or_else, AreColumnsOf, all_symbols};

use name_entries::{Entries, SymbolRef};
use std::alloc::Global;
use wl_base::OutOfMemory;

/// A symbol, by the place of its object among the objects and its place there.
#[derive(Clone, Copy, Debug)]
pub(crate) struct At {
    pub(crate) object: u32,
    pub(crate) place: u32,
}

/// What the rules ask of the references of a name.
#[derive(Clone, Copy, Debug)]
pub(crate) struct Column {
    /// The least with EXPLICIT_NAME that stands on an import.
    pub(crate) explicit: Option<At>,
    /// The least that stands on an import.
    pub(crate) least: Option<At>,
    /// Whether one isn't WEAK.
    pub(crate) strong: bool,
}

/// The first, or else the second where it may be taken.
fn or_at(first: Option<At>, may: bool, second: At) -> Option<At>
    ensures { result ≡ or_else first (given may second) }
{
    match first {
        Some(at) => Some(at),
        None if may => Some(second),
        None => None,
    }
}

impl Column {
    /// No references.
    fn empty() -> Column
        ensures explicit { result.explicit ≡ None }
        ensures least { result.least ≡ None }
        ensures strong { result.strong ≡ false }
    {
        Column {
            explicit: None,
            least: None,
            strong: false,
        }
    }

    /// One reference more, of this symbol, which stands on an import where `stands` is true.
    fn with(self, at: At, symbol: SymbolRef<'_>, stands: bool) -> Column
        ensures explicit { result.explicit ≡ or_else self.explicit (given (stands && is_explicit (symbol_seen symbol.entry)) at) }
        ensures least { result.least ≡ or_else self.least (given stands at) }
        ensures strong { result.strong ≡ (self.strong || not (is_weak (symbol_seen symbol.entry))) }
    {
        Column {
            explicit: or_at(self.explicit, stands && symbol.is_explicit(), at),
            least: or_at(self.least, stands, at),
            strong: self.strong || !symbol.is_weak(),
        }
    }
}

/// Notes a symbol, if it is a reference of a name.
fn note_symbol(columns: &mut [Column], entries: Entries<'_>, object: u32, place: u32)
    requires fits { FitsObjects entries }
    requires count { length columns.old ≡ length entries.names.now.names }
    ensures { (seen : List InputSymbol) (e : InputSymbol) → entry_at entries.entry.objects.now object place ≡ Some e
        → AreColumnsOf entries.entry seen columns.old → AreColumnsOf entries.entry (seen ++ e ∷ []) columns.new }
{
    let Some(entry) = entries.entry(object, place) else {
        return;
    };
    let Some(number) = entry.number else {
        return;
    };
    if entry.defines {
        return;
    }
    let stands = entries.is_imported(object, place);
    let number = number as usize;
    columns[number] = columns[number].with(At { object, place }, entry.symbol, stands);
}

/// Notes the symbols of an object.
fn note_object(columns: &mut [Column], entries: Entries<'_>, object: u32)
    requires fits { FitsObjects entries }
    requires count { length columns.old ≡ length entries.names.now.names }
    ensures { (seen : List InputSymbol) → AreColumnsOf entries.entry seen columns.old
        → AreColumnsOf entries.entry (seen ++ slice_index_or (rows_of entries.entry.objects.now) object []) columns.new }
{
    for place in 0..entries.symbols(object) {
        note_symbol(columns, entries, object, place);
    }
}

/// The columns of all names, by number, from one pass over the symbols.
pub(crate) fn columns_of(alloc: Global, entries: Entries<'_>) -> Result<Vec<Column>, OutOfMemory>
    requires fits { FitsObjects entries }
    ensures { IfOk result (λ columns. AreColumnsOf entries.entry (all_symbols entries.entry.objects.now) columns.items) }
{
    let mut columns = vec![in alloc; Column::empty(); entries.names.count() as usize]?;
    for object in 0..entries.count() {
        note_object(&mut columns, entries, object);
    }
    Ok(columns)
}
