//! The names of symbols.
ghost use Rattle.std.specs.Prelude.{◌≡◌, slice_get, filter_map, option_copied, IfOk};
ghost use Rattle.std.specs.List.{list_any};
ghost use Rattle.std.specs.Str.{bytes_eq};
ghost use Rattle.object_rules.specs.Spaces.{ArePlaces};
ghost use Rattle.object_rules.specs.Symbols.{field_of, import_name, name_of, is_seen, seen_name, names_differ};

use crate::differ::FEW;
use crate::spaces::ImportPlaces;
use indexmap::IndexSet;
use object_parts::{Import, Symbol, SymbolKind};
use std::alloc::Global;
use wl_base::OutOfMemory;

fn field_at(imports: &[Import], place: usize) -> Option<&[u8]>
    ensures { option_copied result ≡ field_of (slice_get imports.now place) }
{
    match imports.get(place) {
        None => None,
        Some(import) => Some(import.field.as_slice()),
    }
}

/// The field of the import that a symbol names, where it names one.
fn import_name<'a>(
    imports: &'a [Import],
    places: &ImportPlaces,
    symbol: &Symbol,
) -> Option<&'a [u8]>
    requires { ArePlaces imports.now places.now }
    ensures { option_copied result ≡ import_name imports.now symbol.now }
{
    let place = places.of_kind(symbol.kind).get(symbol.index as usize)?;
    field_at(imports, *place)
}

/// The name of a symbol: its own, or the field of the import that it names (Linking.md, 'Symbol
/// Table Subsection'). `places` are those of the imports.
pub fn name_of<'a>(
    imports: &'a [Import],
    places: &ImportPlaces,
    symbol: &'a Symbol,
) -> Option<&'a [u8]>
    requires { ArePlaces imports.now places.now }
    ensures { option_copied result ≡ name_of imports.now symbol.now }
{
    match &symbol.name {
        Some(name) => Some(name.as_slice()),
        None => import_name(imports, places, symbol),
    }
}

/// Whether other objects see the symbol's name.
fn is_seen(symbol: &Symbol) -> bool
    ensures { result ≡ is_seen symbol.now }
{
    !matches!(symbol.kind, SymbolKind::Section) && (symbol.is_undefined() || !symbol.is_local())
}

/// The symbol's name, if other objects see it.
fn seen_name<'a>(
    imports: &'a [Import],
    places: &ImportPlaces,
    symbol: &'a Symbol,
) -> Option<&'a [u8]>
    requires { ArePlaces imports.now places.now }
    ensures { option_copied result ≡ seen_name imports.now symbol.now }
{
    if is_seen(symbol) {
        name_of(imports, places, symbol)
    } else {
        None
    }
}

/// Whether other objects see this name at one of the symbols.
fn is_seen_among(imports: &[Import], places: &ImportPlaces, symbols: &[Symbol], name: &[u8]) -> bool
    requires { ArePlaces imports.now places.now }
    ensures { result ≡ list_any (bytes_eq name.now) (filter_map (seen_name imports.now) symbols.now) }
{
    for symbol in symbols {
        if let Some(other) = seen_name(imports, places, symbol) {
            if name == other {
                return true;
            }
        }
    }
    false
}

/// Whether no two names of a few symbols are equal.
fn pairs_differ(imports: &[Import], places: &ImportPlaces, symbols: &[Symbol]) -> bool
    requires { ArePlaces imports.now places.now }
    ensures { result ≡ names_differ imports.now symbols.now }
{
    let mut left = symbols;
    while let [symbol, behind @ ..] = left {
        if let Some(name) = seen_name(imports, places, symbol) {
            if is_seen_among(imports, places, behind, name) {
                return false;
            }
        }
        left = behind;
    }
    true
}

/// Whether no two of the names that other objects see are equal.
pub fn names_differ(
    alloc: Global,
    imports: &[Import],
    places: &ImportPlaces,
    symbols: &[Symbol],
) -> Result<bool, OutOfMemory>
    requires { ArePlaces imports.now places.now }
    ensures { IfOk result (λ differ. differ ≡ names_differ imports.now symbols.now) }
{
    if symbols.len() <= FEW {
        return Ok(pairs_differ(imports, places, symbols));
    }
    let mut seen = IndexSet::new(alloc);
    for symbol in symbols {
        if let Some(name) = seen_name(imports, places, symbol) {
            if !seen.insert(name)? {
                return Ok(false);
            }
        }
    }
    Ok(true)
}
