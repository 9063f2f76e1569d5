//! Which names calls name, by the numbers of names, in one pass over all that parts name.
ghost use Rattle.std.specs.Prelude.{◌≡◌, fold, IfOk};
ghost use Rattle.link_keys.specs.Noted.{flagged};
ghost use Rattle.called_variants.specs.Marked.{name_called, marking, marked};

use link_keys::{Named, Symbol, Tables, symbol_at};
use reloc_section::kinds;
use std::alloc::Global;
use wl_base::OutOfMemory;

/// The name of the function that a reference calls.
fn name_called(kind: u8, symbol: Symbol) -> Option<u32>
    ensures { result ≡ name_called kind symbol }
{
    if kind == kinds::FUNCTION_INDEX_LEB {
        symbol.name
    } else {
        None
    }
}

/// Sets the flag at a place, where there is one.
fn flag(flags: &mut [bool], at: Option<u32>)
    ensures { flags.new ≡ flagged flags.old at }
{
    if let Some(at) = at {
        let at = at as usize;
        if at < flags.len() {
            flags[at] = true;
        }
    }
}

/// Marks the name that an item calls.
fn mark(flags: &mut [bool], symbols: &[Symbol], named: Named)
    ensures { flags.new ≡ marking symbols.now flags.old named }
{
    match named {
        Named::Symbol {
            kind,
            place: _,
            addend: _,
            symbol,
        } => flag(flags, name_called(kind, symbol_at(symbols, symbol))),
        Named::Type {
            place: _,
            number: _,
        } => {}
    }
}

/// Marks the names that a part calls.
fn mark_row(flags: &mut [bool], symbols: &[Symbol], row: &[Named])
    ensures { flags.new ≡ fold (marking symbols.now) flags.old row.now }
{
    for named in row {
        mark(flags, symbols, *named);
    }
}

/// By the number of a name whether a call names it, where there are so many names.
pub(crate) fn marks_of(
    alloc: Global,
    tables: &Tables,
    names: usize,
) -> Result<Vec<bool>, OutOfMemory>
    ensures { IfOk result (λ marks. marks.items ≡ marked names tables.now) }
{
    let mut marks = vec![in alloc; false; names]?;
    for part in 0..tables.named.len() {
        mark_row(
            &mut marks,
            tables.symbols.as_slice(),
            tables.named.row(part),
        );
    }
    Ok(marks)
}
