//! Whether init functions would be lost: where one isn't skipped, and another part of its object is live.
ghost use Rattle.std.specs.Prelude.{◌≡◌, ◌||◌, ◌+◌, ◌<◌, ◌^◌, [], length, flat_map, slice_get, slice_index_or};
ghost use Rattle.link_marks.specs.link_program.linking_section.Flags.{is_undefined};
ghost use Rattle.link_marks.specs.link_program.object_columns.Seen.{symbol_seen};
ghost use Rattle.link_marks.specs.link_program.name_entries.Fits.{FitsObjects};
ghost use Rattle.link_marks.specs.link_program.name_entries.View.{rows_of};
ghost use Rattle.lost_ctors.specs.Inits.{init_lost, inits_lost, lost_of, objects_lost};

use crate::alive::{Alive, alive_of, lives_beside};
use link_marks::{Entries, EntryRef, Tables, number_led, symbol_at};
use linking_section::InitFunc;

/// Whether an init function of this symbol is called: not where it is defined in a part that isn't kept.
fn is_used(entry: EntryRef<'_>) -> bool
    ensures { result ≡ (entry.entry.defines || is_undefined (symbol_seen entry.entry.symbol)) }
{
    entry.defines || entry.symbol.is_undefined()
}

/// Whether an init function of an object isn't skipped, and another part of the object is live. The symbols of the object begin at a place.
fn is_lost(
    tables: &Tables,
    entries: Entries<'_>,
    alive: Alive,
    object: u32,
    first: u32,
    init: InitFunc,
) -> bool
    requires fits { FitsObjects entries }
    requires few { first + length (slice_index_or (rows_of entries.objects.now) object []) < 2 ^ 32 }
    ensures { result ≡ init_lost tables.now entries.entry.objects.now alive object first init }
{
    let Some(entry) = entries.entry(object, init.symbol) else {
        return false;
    };
    let number = first + init.symbol;
    let symbol = symbol_at(tables.symbols.as_slice(), number);
    let own = number_led(&tables.chunks, symbol.lead);
    is_used(entry) && lives_beside(alive, own)
}

/// Whether that is so of some init function of an object.
fn are_lost(
    tables: &Tables,
    entries: Entries<'_>,
    alive: Alive,
    object: u32,
    first: u32,
    inits: &[InitFunc],
) -> bool
    requires fits { FitsObjects entries }
    requires few { first + length (slice_index_or (rows_of entries.objects.now) object []) < 2 ^ 32 }
    ensures { result ≡ inits_lost tables.now entries.entry.objects.now alive object first inits.now }
{
    for init in inits {
        if is_lost(tables, entries, alive, object, first, *init) {
            return true;
        }
    }
    false
}

/// Whether that is so of some init function of the object at a place, whose symbols begin at this one.
fn object_is_lost(
    tables: &Tables,
    entries: Entries<'_>,
    alive: &[Alive],
    object: u32,
    first: u32,
) -> bool
    requires fits { FitsObjects entries }
    requires few { first + length (slice_index_or (rows_of entries.objects.now) object []) < 2 ^ 32 }
    ensures { result ≡ lost_of tables.now entries.entry.objects.now alive.now object first (slice_get entries.entry.objects.now object) }
{
    match entries.objects.get(object as usize) {
        Some(from) => {
            let count = alive_of(alive, from.input);
            are_lost(tables, entries, count, object, first, from.inits.as_slice())
        }
        None => false,
    }
}

/// Whether that is so of some object.
pub(crate) fn some_are_lost(tables: &Tables, entries: Entries<'_>, alive: &[Alive]) -> bool
    requires fits { FitsObjects entries }
    requires few { length (flat_map (λ row. row) (rows_of entries.objects.now)) < 2 ^ 32 }
    ensures { result ≡ objects_lost tables.now entries.entry.objects.now alive.now }
{
    let mut first: u32 = 0;
    for object in 0..entries.count() {
        if object_is_lost(tables, entries, alive, object, first) {
            return true;
        }
        first += entries.symbols(object);
    }
    false
}
