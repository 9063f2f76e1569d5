//! The symbols of an object, each with its name.
ghost use Rattle.std.specs.Prelude.{◌≡◌, map, IfOk};
ghost use Rattle.object_columns.specs.Seen.{symbol_seen};
ghost use Rattle.object_rules.specs.Spaces.{ArePlaces};
ghost use Rattle.object_file.specs.Objects.{with_name};

use object_columns::{SymbolRef, Symbols};
use object_rules::{Import, ImportPlaces, Symbol, name_of};
use std::alloc::Global;
use wl_base::OutOfMemory;

/// A symbol with its name.
fn with_name<'a>(imports: &'a [Import], places: &ImportPlaces, symbol: &'a Symbol) -> SymbolRef<'a>
    requires { ArePlaces imports.now places.now }
    ensures { symbol_seen result ≡ with_name imports.now symbol.now }
{
    SymbolRef {
        kind: symbol.kind,
        flags: symbol.flags,
        name: name_of(imports, places, symbol),
        index: symbol.index,
        offset: symbol.offset,
        size: symbol.size,
    }
}

/// How many bytes the names of the symbols have.
fn names_in(imports: &[Import], places: &ImportPlaces, symbols: &[Symbol]) -> usize
    requires { ArePlaces imports.now places.now }
{
    let mut len: usize = 0;
    for symbol in symbols {
        if let Some(name) = name_of(imports, places, symbol) {
            len = len.saturating_add(name.len());
        }
    }
    len
}

/// The symbols with their names: a symbol without one takes that of the import that it names.
pub fn with_names(
    alloc: Global,
    imports: &[Import],
    symbols: &[Symbol],
) -> Result<Symbols, OutOfMemory>
    ensures { IfOk result (λ named. named ≡ map (with_name imports.now) symbols.now) }
{
    let places = ImportPlaces::of(alloc, imports)?;
    let room = names_in(imports, &places, symbols);
    let mut named = Symbols::with_room(alloc, symbols.len(), room)?;
    for symbol in symbols {
        named.push(with_name(imports, &places, symbol))?;
    }
    Ok(named)
}
