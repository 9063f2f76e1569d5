//! Whether `__wasm_apply_data_relocs` has work: whether live data have windows, or live code takes an address of the link from a cell.
ghost use Rattle.std.specs.Prelude.{◌≡◌};
ghost use Rattle.std.specs.List.{list_any};
ghost use Rattle.link_marks.specs.Due.{calls_seen, is_own_address, reads_own_cell, has_work_in, has_work_at, any_work};

use body_windows::kinds as reloc_kinds;
use link_program::{Lead, Named, Part, Symbol, Tables, part_at, row_at, symbol_at};
use linking_section::SymbolKind;
use mark_bits::kinds as chunk_kinds;

/// Whether `__wasm_call_ctors`, the first part, calls init functions.
pub(crate) fn has_calls(tables: &Tables) -> bool
    ensures { result ≡ calls_seen tables.now }
{
    !row_at(tables, 0).is_empty()
}

/// Whether a symbol is a function or datum of the link.
fn is_own_address(symbol: Symbol) -> bool
    ensures { result ≡ is_own_address symbol }
{
    let is_here = match symbol.lead {
        Lead::Here(_) => true,
        Lead::Import(_) | Lead::Null | Lead::Nothing => false,
    };
    symbol.kind != SymbolKind::GlobalVar && is_here
}

/// Whether a window takes the address of one from a cell.
fn reads_own_cell(symbols: &[Symbol], named: Named) -> bool
    ensures { result ≡ reads_own_cell symbols.now named }
{
    match named {
        Named::Symbol { kind, symbol, .. } => {
            kind == reloc_kinds::GLOBAL_INDEX_LEB && is_own_address(symbol_at(symbols, symbol))
        }
        Named::Type { .. } => false,
    }
}

/// Whether one of these windows does.
fn any_reads(symbols: &[Symbol], row: &[Named]) -> bool
    ensures { result ≡ list_any (reads_own_cell symbols.now) row.now }
{
    row.iter().any(
        |named: &Named| -> bool
            ensures { result ≡ reads_own_cell symbols.entry.now named.now }
        { reads_own_cell(symbols, *named) },
    )
}

/// Whether a part of these windows needs work.
fn has_work_in(symbols: &[Symbol], part: Part, row: &[Named]) -> bool
    ensures { result ≡ has_work_in symbols.now part row.now }
{
    part.chunk.kind == chunk_kinds::SEGMENT && !row.is_empty()
        || part.chunk.kind == chunk_kinds::FUNCTION && any_reads(symbols, row)
}

/// Whether the part of a number does.
fn has_work_at(tables: &Tables, number: u32) -> bool
    ensures { result ≡ has_work_at tables.now number }
{
    has_work_in(
        tables.symbols.as_slice(),
        part_at(tables, number),
        row_at(tables, number),
    )
}

/// Whether one of these parts does.
pub(crate) fn any_work(tables: &Tables, numbers: &[u32]) -> bool
    ensures { result ≡ any_work tables.now numbers.now }
{
    numbers.iter().any(
        |number: &u32| -> bool
            ensures { result ≡ has_work_at tables.entry.now number.now }
        { has_work_at(tables, *number) },
    )
}
