//! The imports that live parts of a shared output call, or refer to as globals. An address of a foreign symbol stands in a cell, and names
//! no import.
ghost use Rattle.std.specs.Prelude.{◌≡◌, false, fold, length, replicate, slice_index_or, IfOk};
ghost use Rattle.link_keys.specs.link_program.Seen.{no_symbol};
ghost use Rattle.link_keys.specs.link_program.Look.{part_at, row_at};
ghost use Rattle.link_keys.specs.Noted.{flagged};
ghost use Rattle.shared_keys.specs.Called.{import_called, flag_named, flag_part, flag_parts};

use link_keys::{Named, Program, Symbol, Tables, flag, import_named, symbol_at};
use link_program::row_at;
use linking_section::SymbolKind;
use reloc_section::kinds;
use std::alloc::Global;
use wl_base::OutOfMemory;

/// The import that a reference calls, or refers to as a global.
fn import_called(kind: u8, symbol: Symbol) -> Option<u32>
    ensures { result ≡ import_called kind symbol }
{
    if kind == kinds::FUNCTION_INDEX_LEB || symbol.kind == SymbolKind::GlobalVar {
        import_named(symbol.lead)
    } else {
        None
    }
}

/// Flags the import that a window names.
fn note(flags: &mut [bool], symbols: &[Symbol], named: Named)
    ensures { flags.new ≡ flag_named symbols.now flags.old named }
{
    match named {
        Named::Symbol {
            kind,
            place: _,
            addend: _,
            symbol,
        } => flag(flags, import_called(kind, symbol_at(symbols, symbol))),
        Named::Type {
            place: _,
            number: _,
        } => {}
    }
}

/// Flags the imports that a part names.
fn note_row(flags: &mut [bool], symbols: &[Symbol], row: &[Named])
    ensures { flags.new ≡ fold (flag_named symbols.now) flags.old row.now }
{
    for named in row {
        note(flags, symbols, *named);
    }
}

/// Flags the imports that a live part names.
fn note_part(flags: &mut [bool], tables: &Tables, number: u32)
    ensures { flags.new ≡ flag_part tables.now flags.old number }
{
    note_row(flags, tables.symbols.as_slice(), row_at(tables, number));
}

/// By the number of an import whether a live part calls it, or refers to it as a global.
pub fn called_imports(
    alloc: Global,
    program: Program<'_>,
    live: &[u32],
) -> Result<Vec<bool>, OutOfMemory>
    ensures { IfOk result (λ flags. flags.items ≡ flag_parts program.entry.tables.now (replicate (length program.entry.resolution.now.imports) false) live.now) }
{
    let mut flags = vec![in alloc; false; program.resolution.imports() as usize]?;
    for number in live {
        note_part(flags.as_mut_slice(), program.tables, *number);
    }
    Ok(flags)
}
