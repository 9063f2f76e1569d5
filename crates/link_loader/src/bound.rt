//! Windows of live parts that ask for nothing that a shared output doesn't have. There are many more windows than symbols, so that they are looked
//! at where a symbol is found by which some window might ask for it.
ghost use Rattle.std.specs.Prelude.{◌≡◌, All};
ghost use Rattle.std.specs.List.{list_all};
ghost use Rattle.link_program.specs.Seen.{NamesOne};
ghost use Rattle.link_loader.specs.Bound.{has_name, bound_part, is_bound_by, is_bound, is_always_bound};

use crate::cells::is_addressed;
use link_program::{Lead, Named, Symbol, Tables, row_at, symbol_at};
use reloc_section::kinds;

// Whether a symbol is an entry of a name.
fn has_name(symbol: Symbol) -> bool
    ensures { result ≡ has_name symbol.name }
{
    match symbol.name {
        Some(_) => true,
        None => false,
    }
}

// Whether a window calls, or names no function or datum, or one that is of the link, or by its name imported.
fn is_bound_by(kind: u8, symbol: Symbol) -> bool
    ensures { result ≡ is_bound_by kind symbol symbol.lead }
{
    match symbol.lead {
        Lead::Here(_) => true,
        Lead::Import(_) => has_name(symbol),
        Lead::Null | Lead::Nothing => { kind == kinds::FUNCTION_INDEX_LEB || !is_addressed(symbol) }
    }
}

fn is_bound(symbols: &[Symbol], named: Named) -> bool
    ensures { result ≡ is_bound symbols.now named }
{
    match named {
        Named::Symbol {
            kind,
            place: _,
            addend: _,
            symbol,
        } => is_bound_by(kind, symbol_at(symbols, symbol)),
        Named::Type {
            place: _,
            number: _,
        } => true,
    }
}

// Whether all of these windows do so.
fn row_is_bound(symbols: &[Symbol], row: &[Named]) -> bool
    ensures { result ≡ list_all (is_bound symbols.now) row.now }
{
    row.iter().all(
        |named: &Named| -> bool
            ensures { result ≡ is_bound symbols.entry.now named.now }
        { is_bound(symbols, *named) },
    )
}

// Whether all windows of the part of a number do.
fn part_is_bound(tables: &Tables, number: u32) -> bool
    ensures { result ≡ bound_part tables.now number }
{
    row_is_bound(tables.symbols.as_slice(), row_at(tables, number))
}

// Whether all windows of the parts of these numbers do.
fn parts_are_bound(tables: &Tables, live: &[u32]) -> bool
    ensures { result ≡ list_all (bound_part tables.now) live.now }
{
    live.iter().all(
        |number: &u32| -> bool
            ensures { result ≡ bound_part tables.entry.now number.now }
        { part_is_bound(tables, *number) },
    )
}

// Whether a window of any type that names the symbol does.
fn is_always_bound(symbol: Symbol) -> bool
    ensures { result ≡ is_always_bound symbol symbol.lead }
{
    match symbol.lead {
        Lead::Here(_) => true,
        Lead::Import(_) => has_name(symbol),
        Lead::Null | Lead::Nothing => !is_addressed(symbol),
    }
}

// Whether that is so of all symbols.
fn symbols_are_bound(symbols: &[Symbol]) -> bool
    ensures { result ≡ list_all (λ s. is_always_bound s s.lead) symbols.now }
{
    symbols.iter().all(
        |symbol: &Symbol| -> bool
            ensures { result ≡ is_always_bound symbol.now symbol.now.lead }
        { is_always_bound(*symbol) },
    )
}

/// Whether all windows of live parts do. A shared output has no null functions or data, and only entries of names are imported.
#[tactic(auto, using(crate::proofs::AlwaysBound::all_bound))]
pub(crate) fn all_are_bound(tables: &Tables, live: &[u32]) -> bool
    requires there { All (λ row. All (NamesOne tables.now.symbols tables.now.types) row) tables.now.named }
    ensures { result ≡ list_all (bound_part tables.now) live.now }
{
    if symbols_are_bound(tables.symbols.as_slice()) {
        return true;
    }
    parts_are_bound(tables, live)
}
