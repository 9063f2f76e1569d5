//! Where the bodies of functions begin in the payload of the code section.
ghost use Rattle.std.specs.Prelude.{◌≡◌, ◌<◌, map, slice_get, slice_index_or, if◌then◌else◌, IfOk};
ghost use Rattle.link_program.specs.linking_section.declared.symbol.SymbolKind.TheVariants.{Function};
ghost use Rattle.link_program.specs.object_columns.Seen.{symbol_seen};
ghost use Rattle.debug_places.specs.Bodies.{bodies_seen, place_in, body_at, body_of, body_for, body_row};

use crate::rows::narrowed;
use found_numbers::{function_at, imported_functions};
use link_layout::Numbering;
use link_program::{FunctionKey, Object, SymbolRef};
use linking_section::SymbolKind;
use std::alloc::Global;
use wl_base::{InputId, OutOfMemory, Seq, Span};

/// Where bodies stand in the output, by reference.
#[derive(Clone, Copy)]
pub(crate) struct Bodies<'a> {
    pub numbering: &'a Numbering,
    /// How many functions are imported.
    pub imported: usize,
    /// The place of each body, then of each block of data.
    pub places: &'a [u64],
    /// The payload of the code section.
    pub code: Option<Span>,
}

/// The place of a number, or 0.
fn place_at(places: &[u64], at: usize) -> u64
    ensures { result ≡ slice_index_or places.now at 0 }
{
    match places.get(at) {
        Some(place) => *place,
        None => 0,
    }
}

/// Where the body of the function of a number begins behind the first byte of the code's payload.
fn place_in(view: Bodies<'_>, number: u32) -> Option<u64>
    ensures { result ≡ place_in (bodies_seen view.entry) number view.entry.code }
{
    let Some(code) = view.code else {
        return None;
    };
    let at = (number as usize).saturating_sub(view.imported);
    Some(place_at(view.places, at).saturating_sub(code.start))
}

/// The same of the function that an object defines, where the output has it.
fn body_at(view: Bodies<'_>, input: InputId, index: u32) -> Option<u64>
    ensures { result ≡ body_at (bodies_seen view.entry) input index }
{
    match function_at(view.numbering, FunctionKey::Own { input, index }) {
        Some(number) => place_in(view, number),
        None => None,
    }
}

/// Where the body begins of the function that a symbol defines. So many functions are imported.
fn body_of(view: Bodies<'_>, input: InputId, imported: usize, symbol: SymbolRef<'_>) -> Option<u64>
    ensures { result ≡ body_of (bodies_seen view.entry) input imported (symbol_seen symbol.entry) }
{
    let is_function = symbol.kind.code() == SymbolKind::Function.code();
    if is_function && !symbol.is_undefined() {
        let index = (symbol.index as usize).saturating_sub(imported);
        body_at(view, input, index as u32)
    } else {
        None
    }
}

/// The same of the symbol of a place.
fn body_for(view: Bodies<'_>, o: &Object, imported: usize, at: usize) -> Option<u64>
    ensures { result ≡ body_for (bodies_seen view.entry) o.now.input imported (slice_get o.now.symbols at) }
{
    match o.symbols.get(at) {
        Some(symbol) => body_of(view, o.input, imported, symbol),
        None => None,
    }
}

/// The same of all symbols of an object.
fn body_row(alloc: Global, view: Bodies<'_>, o: &Object) -> Result<Seq<Option<u32>>, OutOfMemory>
    ensures { IfOk result (λ row. row ≡ body_row (bodies_seen view.entry) o.now) }
{
    let imported = imported_functions(&o.imports);
    let mut row = Seq::with_room(alloc, o.symbols.len())?;
    for at in 0..o.symbols.len() {
        let place = narrowed(body_for(view, o, imported, at))?;
        row.push(place)?;
    }
    Ok(row)
}

/// The same of all objects.
pub(crate) fn body_rows(
    alloc: Global,
    view: Bodies<'_>,
    objects: &[Object],
) -> Result<Seq<Seq<Option<u32>>>, OutOfMemory>
    ensures { IfOk result (λ rows. rows ≡ map (body_row (bodies_seen view.entry)) objects.now) }
{
    let mut rows = Seq::with_room(alloc, objects.len())?;
    for o in objects {
        rows.push(body_row(alloc, view, o)?)?;
    }
    Ok(rows)
}
