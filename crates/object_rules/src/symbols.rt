//! What symbols name.
ghost use Rattle.std.specs.Prelude.{◌≡◌, slice_get};
ghost use Rattle.std.specs.List.{list_all};
ghost use Rattle.object_rules.specs.Symbols.{stands, lies_in, symbol_stands, symbols_stand};

use crate::spaces::Counts;
use object_parts::{DataPart, Parts, Symbol, SymbolKind};

/// Whether the index is in range, and the symbol undefined exactly where it is that of an import.
fn stands(symbol: &Symbol, imports: usize, all: usize) -> bool
    ensures { result ≡ stands symbol.now imports all }
{
    let index = symbol.index as usize;
    let fits = if index < imports {
        symbol.is_undefined()
    } else {
        !symbol.is_undefined()
    };
    index < all && fits
}

/// Whether a datum lies in its segment.
fn lies_in(symbol: &Symbol, segments: &[DataPart]) -> bool
    ensures { result ≡ lies_in symbol.now (slice_get segments.now symbol.now.index) }
{
    let end = u64::from(symbol.offset) + u64::from(symbol.size);
    match segments.get(symbol.index as usize) {
        None => false,
        Some(segment) => end <= segment.span.len,
    }
}

fn symbol_stands(counts: &Counts, segments: &[DataPart], symbol: &Symbol) -> bool
    ensures { result ≡ symbol_stands counts.now segments.now symbol.now symbol.now.kind }
{
    match symbol.kind {
        SymbolKind::Function => stands(symbol, counts.imported_functions, counts.functions),
        SymbolKind::Datum => symbol.is_undefined() || lies_in(symbol, segments),
        SymbolKind::GlobalVar => stands(symbol, counts.imported_globals, counts.globals),
        SymbolKind::Section => (symbol.index as usize) < counts.sections,
        SymbolKind::Table => stands(symbol, counts.tables, counts.tables),
    }
}

fn all_stand(counts: &Counts, segments: &[DataPart], symbols: &[Symbol]) -> bool
    ensures { result ≡ list_all (λ s. symbol_stands counts.now segments.now s s.kind) symbols.now }
{
    symbols
        .iter()
        .all(|symbol| symbol_stands(counts, segments, symbol))
}

/// Whether each symbol names what is there.
pub fn symbols_stand(counts: &Counts, parts: &Parts, symbols: &[Symbol]) -> bool
    ensures { result ≡ symbols_stand counts.now parts.now symbols.now }
{
    all_stand(counts, parts.segments.as_slice(), symbols)
}
