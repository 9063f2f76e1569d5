//! Definitions, by where they stand.
ghost use Rattle.std.specs.Prelude.{◌≡◌, ◌<◌, length, Some, IsSome};
ghost use Rattle.link_program.specs.made_symbols.Made.{made};
ghost use Rattle.link_program.specs.name_rules.Entries.{InputSymbol};
ghost use Rattle.link_program.specs.name_entries.View.{entry_at};
ghost use Rattle.link_program.specs.name_entries.Fits.{FitsObjects};
ghost use Rattle.link_program.specs.Told.{told_definition};
ghost use Rattle.program_tables.specs.Leads.{made_definition};

use link_program::{Definition, Entries};
use made_symbols::{Mode, kind};

/// The symbol at a place of an object, by the object's place, as a definition.
pub(crate) fn definition_at(entries: Entries<'_>, object: u32, place: u32) -> Definition
    requires fits { FitsObjects entries }
    requires there { IsSome (entry_at entries.objects.now object place) }
    ensures { (e : InputSymbol) → entry_at entries.entry.objects.now object place ≡ Some e → result ≡ told_definition e }
{
    match entries.entry(object, place) {
        Some(entry) => Definition {
            input: entry.input,
            place,
            kind: entry.symbol.kind,
            index: entry.index,
            offset: entry.symbol.offset,
        },
        None => unreachable!(),
    }
}

/// A linker-made symbol of the mode as a definition, by its number.
pub(crate) fn made_definition(mode: Mode, number: u32) -> Definition
    requires { number < length (made mode) }
    ensures { result ≡ made_definition mode number }
{
    Definition {
        input: 0,
        place: number,
        kind: kind(mode, number),
        index: number,
        offset: 0,
    }
}
