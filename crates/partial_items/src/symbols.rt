//! The symbols of the object, which lend their names.
ghost use Rattle.std.specs.Prelude.{◌≡◌, ◌++◌, [], Some, map, filter_map, option_map, IfOk, OnOk};
ghost use Rattle.std.specs.List.{cons_option};
ghost use Rattle.partial_tree.specs.link_program.name_entries.Fits.{FitsObjects};
ghost use Rattle.partial_tree.specs.Rows.{row_seen};
ghost use Rattle.partial_bytes.specs.Told.{symbol_told};

use partial_bytes::SymbolRow;
use partial_tree::{Entries, Row};
use std::alloc::Global;
use wl_base::{OutOfMemory, Seq};

/// The symbol of a record.
fn symbol_of<'a>(entries: Entries<'a>, row: Row) -> Option<SymbolRow<'a>>
    requires { FitsObjects entries }
    ensures { option_map symbol_told result ≡ row_seen entries.entry.objects.now row }
{
    let Some(entry) = entries.entry(row.at.object, row.at.place) else {
        return None;
    };
    if row.is_open {
        return Some(SymbolRow {
            kind: entry.symbol.kind,
            flags: row.flags,
            name: Some(entry.symbol.name.unwrap_or(&[])),
            index: row.index,
            offset: 0,
            size: 0,
        });
    }
    Some(SymbolRow {
        kind: entry.symbol.kind,
        flags: entry.symbol.flags,
        name: entry.symbol.name,
        index: row.index,
        offset: entry.symbol.offset,
        size: entry.symbol.size,
    })
}

/// Puts a symbol behind others, where there is one.
fn put<'a>(
    symbols: &mut Seq<SymbolRow<'a>>,
    found: Option<SymbolRow<'a>>,
) -> Result<(), OutOfMemory>
    ensures { OnOk result (symbols.new ≡ symbols.old ++ cons_option found.entry []) }
{
    if let Some(symbol) = found {
        symbols.push(symbol)?;
    }
    Ok(())
}

/// The symbols of these records. `entries` is the view of the program's objects.
pub fn symbols_of<'a>(
    alloc: Global,
    entries: Entries<'a>,
    rows: &[Row],
) -> Result<Seq<SymbolRow<'a>>, OutOfMemory>
    requires { FitsObjects entries }
    ensures { IfOk result (λ symbols. map symbol_told symbols ≡ filter_map (row_seen entries.entry.objects.now) rows.now) }
{
    let mut symbols = Seq::with_room(alloc, rows.len())?;
    for row in rows {
        put(&mut symbols, symbol_of(entries, *row))?;
    }
    Ok(symbols)
}
