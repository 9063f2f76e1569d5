//! What symbols name: the first name that is offered to a function stays.
ghost use Rattle.std.specs.Prelude.{◌≡◌, [], length, map, fold, slice_get, drop, unwrap_or};
ghost use Rattle.link_program.specs.object_columns.Seen.{symbol_seen};
ghost use Rattle.link_program.specs.object_file.Spaces.{function_imports};
ghost use Rattle.function_names.specs.Names.{or_name};
ghost use Rattle.names_out.specs.Told.{label_seen, import_named_told, function_named_told, number_told, lead_at, offer_at, offers_told, offers_rows, taken_by, taking};

use crate::labels::{Label, is_empty, plain};
use found_numbers::{function_at, imported_functions};
use link_layout::Numbering;
use link_program::{FunctionKey, Lead, Object, Symbol, SymbolRef};
use linking_section::SymbolKind;
use wl_base::InputId;

/// The import that a symbol means.
fn import_named(lead: Lead) -> Option<FunctionKey>
    ensures { result ≡ import_named_told lead }
{
    match lead {
        Lead::Import(number) => Some(FunctionKey::Import(number)),
        Lead::Here(_) | Lead::Null | Lead::Nothing => None,
    }
}

/// The function that a symbol of an object names. So many functions are imported there.
fn function_named(
    input: InputId,
    imported: usize,
    symbol: SymbolRef<'_>,
    lead: Lead,
) -> Option<FunctionKey>
    ensures { result ≡ function_named_told input imported (symbol_seen symbol.entry) lead }
{
    let is_function = symbol.kind.code() == SymbolKind::Function.code();
    if is_function && !symbol.is_undefined() {
        let index = (symbol.index as usize).saturating_sub(imported) as u32;
        Some(FunctionKey::Own { input, index })
    } else {
        import_named(lead)
    }
}

/// The number of a function, where the output has it.
fn number_of(numbering: &Numbering, key: Option<FunctionKey>) -> Option<u32>
    ensures { result ≡ number_told numbering.now.functions key }
{
    match key {
        Some(key) => function_at(numbering, key),
        None => None,
    }
}

/// The name of a symbol, or the empty one.
fn name_of<'a>(symbol: SymbolRef<'a>) -> &'a [u8]
    ensures { result.now ≡ unwrap_or (symbol_seen symbol.entry).name [] }
{
    match symbol.name {
        Some(name) => name,
        None => &[],
    }
}

/// A name, or another where it is empty.
#[tactic(auto, using(crate::proofs::Offered::kept, crate::proofs::Offered::replaced))]
fn or_name<'a>(label: Label<'a>, name: &'a [u8]) -> Label<'a>
    ensures { label_seen result ≡ or_name (label_seen label.entry) name.now }
{
    if is_empty(label) { plain(name) } else { label }
}

/// Gives the function of a number a name, unless it has one.
#[tactic(auto, using(crate::proofs::Offered::taken_there, crate::proofs::Offered::taken_past))]
fn note<'a>(table: &mut [Label<'a>], number: Option<u32>, name: &'a [u8])
    ensures { map label_seen table.new ≡ taken_by (map label_seen table.old) number name.now }
{
    if let Some(number) = number {
        let at = number as usize;
        if at < table.len() {
            table[at] = or_name(table[at], name);
        }
    }
}

/// What the symbol of a place leads to.
fn lead_at(symbols: &[Symbol], at: usize) -> Lead
    ensures { result ≡ lead_at (slice_get symbols.now at) }
{
    match symbols.get(at) {
        Some(symbol) => symbol.lead,
        None => Lead::Nothing,
    }
}

/// Offers the name of the symbol of a place.
fn offer<'a>(
    table: &mut [Label<'a>],
    numbering: &Numbering,
    o: &'a Object,
    imported: usize,
    symbols: &[Symbol],
    at: usize,
)
    ensures { map label_seen table.new ≡ taking (map label_seen table.old) (offer_at numbering.now.functions o.now.input imported (slice_get o.now.symbols at) (slice_get symbols.now at)) }
{
    if let Some(symbol) = o.symbols.get(at) {
        let lead = lead_at(symbols, at);
        let number = number_of(numbering, function_named(o.input, imported, symbol, lead));
        note(table, number, name_of(symbol));
    }
}

/// Offers the names of an object's symbols, which are the first of those whose leads are told.
fn offer_all<'a>(table: &mut [Label<'a>], numbering: &Numbering, o: &'a Object, symbols: &[Symbol])
    ensures { map label_seen table.new ≡ fold taking (map label_seen table.old) (offers_told numbering.now.functions o.now.input (length (function_imports o.now)) o.now.symbols symbols.now) }
{
    let imported = imported_functions(&o.imports);
    for at in 0..o.symbols.len() {
        offer(table, numbering, o, imported, symbols, at);
    }
}

/// All but so many symbols.
fn behind(symbols: &[Symbol], count: usize) -> &[Symbol]
    ensures { result.now ≡ drop count symbols.now }
{
    &symbols[symbols.len().min(count)..]
}

/// Offers the names of the symbols of objects, which stand one object behind another.
pub(crate) fn offer_names<'a>(
    table: &mut [Label<'a>],
    numbering: &Numbering,
    objects: &'a [Object],
    symbols: &[Symbol],
)
    ensures { map label_seen table.new ≡ fold taking (map label_seen table.old) (offers_rows numbering.now.functions objects.now symbols.now) }
{
    let mut left = symbols;
    for o in objects {
        offer_all(table, numbering, o, left);
        left = behind(left, o.symbols.len());
    }
}
