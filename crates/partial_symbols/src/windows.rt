//! The names that windows and init entries name, by their numbers.
ghost use Rattle.std.specs.Prelude.{◌≡◌, false, fold, replicate, take, IfOk};
ghost use Rattle.partial_symbols.specs.Columns.{named_number, flagged};

use link_program::{Named, Symbol, symbol_at};
use std::alloc::Global;
use wl_base::OutOfMemory;
use wl_rows::Rows;

/// The number of the name that an item names.
fn named_number(symbols: &[Symbol], named: Named) -> Option<u32>
    ensures { result ≡ named_number symbols.now named }
{
    match named {
        Named::Symbol {
            kind: _,
            place: _,
            addend: _,
            symbol,
        } => symbol_at(symbols, symbol).name,
        Named::Type {
            place: _,
            number: _,
        } => None,
    }
}

/// Flags the name that an item names.
fn flag(flags: &mut [bool], symbols: &[Symbol], named: Named)
    ensures { flags.new ≡ flagged symbols.now flags.old named }
{
    let Some(number) = named_number(symbols, named) else {
        return;
    };
    let number = number as usize;
    if number < flags.len() {
        flags[number] = true;
    }
}

/// Flags the names that a part names.
fn flag_row(flags: &mut [bool], symbols: &[Symbol], row: &[Named])
    ensures { flags.new ≡ fold (flagged symbols.now) flags.old row.now }
{
    for named in row {
        flag(flags, symbols, *named);
    }
}

/// Of so many names whether a part names one.
pub(crate) fn named_by(
    alloc: Global,
    symbols: &[Symbol],
    rows: &Rows<Named>,
    names: usize,
) -> Result<Vec<bool>, OutOfMemory>
    ensures { IfOk result (λ flags. flags.items ≡ fold (fold (flagged symbols.now)) (replicate names false) rows.now) }
{
    let mut flags = vec![in alloc; false; names]?;
    for at in 0..rows.len() {
        flag_row(flags.as_mut_slice(), symbols, rows.row(at));
    }
    Ok(flags)
}
