//! What the passes look at of a symbol.
ghost use Rattle.std.specs.Prelude.{◌≡◌, option_map};
ghost use Rattle.link_program.specs.name_entries.View.{entry_at};
ghost use Rattle.link_program.specs.name_entries.Fits.{FitsObjects};
ghost use Rattle.partial_symbols.specs.Facts.{fact_of};

use link_program::Entries;
use linking_section::SymbolKind;
use wl_base::InputId;

/// A symbol, by the place of its object among the objects and its place there.
#[derive(Clone, Copy, Debug)]
pub struct At {
    pub object: u32,
    pub place: u32,
}

/// A symbol, by its input and its place there.
#[derive(Clone, Copy, Debug)]
pub struct Spot {
    pub input: InputId,
    pub place: u32,
}

/// A symbol of an object.
#[derive(Clone, Copy, Debug)]
pub struct Fact {
    /// The place of its object among the objects.
    pub object: u32,
    pub input: InputId,
    /// Its place among the symbols of its object.
    pub place: u32,
    /// The number of its name, where it is an entry of one.
    pub number: Option<u32>,
    pub kind: SymbolKind,
    /// Whether it is a definition in a kept part.
    pub defines: bool,
    /// Whether it is WEAK.
    pub weak: bool,
    /// Whether it has EXPLICIT_NAME.
    pub explicit: bool,
    /// Whether it stands on an import.
    pub imported: bool,
}

/// What is looked at of the symbol at a place; `None` exactly where there is none.
pub(crate) fn fact_at(entries: Entries<'_>, object: u32, place: u32) -> Option<Fact>
    requires { FitsObjects entries }
    ensures { result ≡ option_map (fact_of entries.entry.names.now.names object) (entry_at entries.entry.objects.now object place) }
{
    let Some(entry) = entries.entry(object, place) else {
        return None;
    };
    Some(Fact {
        object,
        input: entry.input,
        place: entry.place,
        number: entry.number,
        kind: entry.symbol.kind,
        defines: entry.defines,
        weak: entry.symbol.is_weak(),
        explicit: entry.symbol.is_explicit(),
        imported: entries.is_imported(object, place),
    })
}
