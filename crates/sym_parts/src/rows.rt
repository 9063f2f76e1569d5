//! What parts name, by place.
ghost use Rattle.std.specs.Prelude.{◌≡◌, map, slice_get, option_and_then, IfOk};
ghost use Rattle.sym_parts.specs.Keys.{ArePlaces};
ghost use Rattle.sym_parts.specs.Sought.{named_at, named_place, place_code};

use crate::places::Places;
use link_keys::Code;
use link_program::Named;
use std::alloc::Global;
use wl_base::OutOfMemory;

/// Where an item stands in its part.
fn named_place(named: Named) -> u32
    ensures { result ≡ named_place named }
{
    match named {
        Named::Symbol {
            kind: _,
            place,
            addend: _,
            symbol: _,
        } => place,
        Named::Type { place, number: _ } => place,
    }
}

/// Items by place.
pub(crate) fn row_places(alloc: Global, row: &[Named]) -> Result<Places, OutOfMemory>
    ensures { IfOk result (λ places. ArePlaces (map place_code row.now) places) }
{
    let mut codes = Vec::with_capacity(alloc, row.len())?;
    for named in row {
        codes.push(Code {
            kind: 0,
            input: 0,
            index: named_place(*named),
        })?;
    }
    Places::new(alloc, codes.as_slice())
}

/// The item of a number.
fn item_at(row: &[Named], at: Option<u32>) -> Option<Named>
    ensures { result ≡ option_and_then (slice_get row.now) at }
{
    let at = at?;
    row.get(at as usize).copied()
}

/// The item that stands at a place.
pub(crate) fn named_at(row: &[Named], places: &Places, place: u32) -> Option<Named>
    requires { ArePlaces (map place_code row.now) places.now }
    ensures { result ≡ named_at row.now place }
{
    let code = Code {
        kind: 0,
        input: 0,
        index: place,
    };
    item_at(row, places.find(code))
}
