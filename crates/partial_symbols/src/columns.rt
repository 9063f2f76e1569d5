//! What is asked of the entries that objects have of each name, by the name's number.
ghost use Rattle.std.specs.Prelude.{◌≡◌, [], Some, map, option_map, fold, replicate, length, slice_index_or, IfOk};
ghost use Rattle.std.specs.Option.{option_or};
ghost use Rattle.link_program.specs.wl_base.Choice.{given};
ghost use Rattle.link_program.specs.name_entries.View.{rows_of, entry_at};
ghost use Rattle.link_program.specs.name_entries.Fits.{FitsObjects};
ghost use Rattle.partial_symbols.specs.declared.facts.Fact.{Fact as Seen};
ghost use Rattle.partial_symbols.specs.Facts.{fact_of, facts_of};
ghost use Rattle.partial_symbols.specs.Columns.{empty_column, with, noted};

use crate::facts::{At, Fact, Spot, fact_at};
use link_program::Entries;
use std::alloc::Global;
use wl_base::OutOfMemory;

/// What is asked of the entries that objects have of a name.
#[derive(Clone, Copy, Debug)]
pub struct Column {
    /// The least entry.
    pub least: Option<Spot>,
    /// The least reference that stands on an import.
    pub import: Option<At>,
    /// The least reference with EXPLICIT_NAME that stands on one.
    pub explicit_import: Option<At>,
    /// Whether an entry is a reference.
    pub referenced: bool,
    /// Whether a reference isn't WEAK.
    pub strong: bool,
    /// Whether a reference has EXPLICIT_NAME.
    pub explicit: bool,
}

/// The first, or else the second where it may be taken.
fn or_at(first: Option<At>, may: bool, second: At) -> Option<At>
    ensures { result ≡ option_or first (given may second) }
{
    match first {
        Some(at) => Some(at),
        None if may => Some(second),
        None => None,
    }
}

/// The first, or else the second.
pub(crate) fn or_spot(first: Option<Spot>, second: Spot) -> Option<Spot>
    ensures { result ≡ option_or first (Some second) }
{
    match first {
        Some(spot) => Some(spot),
        None => Some(second),
    }
}

impl Column {
    /// No entries.
    pub(crate) fn empty() -> Column
        ensures { result ≡ empty_column }
    {
        Column {
            least: None,
            import: None,
            explicit_import: None,
            referenced: false,
            strong: false,
            explicit: false,
        }
    }

    /// One entry more.
    fn with(self, fact: Fact) -> Column
        ensures { result ≡ with self fact }
    {
        let refers = !fact.defines;
        let stands = refers && fact.imported;
        let at = At {
            object: fact.object,
            place: fact.place,
        };
        let spot = Spot {
            input: fact.input,
            place: fact.place,
        };
        Column {
            least: or_spot(self.least, spot),
            import: or_at(self.import, stands, at),
            explicit_import: or_at(self.explicit_import, stands && fact.explicit, at),
            referenced: self.referenced || refers,
            strong: self.strong || (refers && !fact.weak),
            explicit: self.explicit || (refers && fact.explicit),
        }
    }
}

/// Notes a symbol, if it is an entry of a name.
fn note(columns: &mut [Column], fact: Fact)
    ensures { columns.new ≡ noted columns.old fact }
{
    let Some(number) = fact.number else {
        return;
    };
    let number = number as usize;
    if number < columns.len() {
        columns[number] = columns[number].with(fact);
    }
}

/// Notes the symbol at a place.
fn note_at(columns: &mut [Column], entries: Entries<'_>, object: u32, place: u32)
    requires { FitsObjects entries }
    ensures { (f : Seen) → Some f ≡ option_map (fact_of entries.entry.names.now.names object) (entry_at entries.entry.objects.now object place) → columns.new ≡ noted columns.old f }
{
    if let Some(fact) = fact_at(entries, object, place) {
        note(columns, fact);
    }
}

/// Notes the symbols of an object.
fn note_object(columns: &mut [Column], entries: Entries<'_>, object: u32)
    requires { FitsObjects entries }
    ensures { columns.new ≡ fold noted columns.old (map (fact_of entries.entry.names.now.names object) (slice_index_or (rows_of entries.entry.objects.now) object [])) }
{
    for place in 0..entries.symbols(object) {
        note_at(columns, entries, object, place);
    }
}

/// The columns of all names, by number, from one pass over the symbols.
pub(crate) fn columns_of(alloc: Global, entries: Entries<'_>) -> Result<Vec<Column>, OutOfMemory>
    requires { FitsObjects entries }
    ensures { IfOk result (λ columns. columns.items ≡ fold noted (replicate (length entries.entry.names.now.names) empty_column) (facts_of entries.entry.names.now.names entries.entry.objects.now)) }
{
    let mut columns = vec![in alloc; Column::empty(); entries.names.count() as usize]?;
    for object in 0..entries.count() {
        note_object(columns.as_mut_slice(), entries, object);
    }
    Ok(columns)
}
