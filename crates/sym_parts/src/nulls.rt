//! The names of null functions to which parts refer.
ghost use Rattle.std.specs.Prelude.{◌≡◌, [], fold, IfOk, OnOk};
ghost use Rattle.link_keys.specs.Noted.{is_null_lead};
ghost use Rattle.sym_parts.specs.Keys.{null_name, null_named, with_null, with_nulls, nulls_of};

use indexmap::IndexSet;
use link_program::{Lead, Named, Symbol, Tables, symbol_at};
use linking_section::SymbolKind;
use std::alloc::Global;
use wl_base::OutOfMemory;

/// Whether a symbol is null.
fn is_null(lead: Lead) -> bool
    ensures { result ≡ is_null_lead lead }
{
    matches!(lead, Lead::Null)
}

/// The name of a null function, by its number.
fn null_name(symbol: Symbol) -> Option<u32>
    ensures { result ≡ null_name symbol }
{
    if is_null(symbol.lead) && symbol.kind.code() == SymbolKind::Function.code() {
        symbol.name
    } else {
        None
    }
}

/// The name of the null function that a part names.
fn null_named(symbols: &[Symbol], named: Named) -> Option<u32>
    ensures { result ≡ null_named symbols.now named }
{
    match named {
        Named::Symbol {
            kind: _,
            place: _,
            addend: _,
            symbol,
        } => null_name(symbol_at(symbols, symbol)),
        Named::Type {
            place: _,
            number: _,
        } => None,
    }
}

/// Adds the name of the null function that a part names.
fn add_null(held: &mut IndexSet<u32>, symbols: &[Symbol], named: Named) -> Result<(), OutOfMemory>
    ensures { OnOk result (held.new.keys ≡ with_null symbols.now held.old.keys named) }
{
    if let Some(name) = null_named(symbols, named) {
        held.insert(name)?;
    }
    Ok(())
}

/// Adds the names of the null functions that a part names.
fn add_nulls(held: &mut IndexSet<u32>, symbols: &[Symbol], row: &[Named]) -> Result<(), OutOfMemory>
    ensures { OnOk result (held.new.keys ≡ with_nulls symbols.now held.old.keys row.now) }
{
    for named in row {
        add_null(held, symbols, *named)?;
    }
    Ok(())
}

/// The names of all null functions to which parts refer, by number, in first-seen order.
pub(crate) fn null_names(alloc: Global, tables: &Tables) -> Result<IndexSet<u32>, OutOfMemory>
    ensures { IfOk result (λ held. held.keys ≡ nulls_of tables.now) }
{
    let mut held: IndexSet<u32> = IndexSet::new(alloc);
    for at in 0..tables.named.len() {
        add_nulls(&mut held, tables.symbols.as_slice(), tables.named.row(at))?;
    }
    Ok(held)
}
