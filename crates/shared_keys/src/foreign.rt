//! The cells of foreign addresses that live parts ask for, by the numbers of their imports. That of a symbol which has none is answered as
//! want of memory: there is no such symbol in what is linked.
ghost use Rattle.std.specs.Prelude.{◌≡◌, fold, slice_index_or, Some, OnOk};
ghost use Rattle.link_keys.specs.link_program.Seen.{no_symbol};
ghost use Rattle.link_keys.specs.link_program.Look.{part_at, row_at};
ghost use Rattle.shared_keys.specs.Cells.{OneEach};
ghost use Rattle.shared_keys.specs.Foreign.{put_cell, put_named, put_row, put_part, put_parts};

use crate::cells::{asks_cell, cell_of};
use indexmap::IndexSet;
use link_keys::{Named, Names, Program, Symbol, symbol_at};
use link_program::{Resolution, part_at, row_at};
use wl_base::OutOfMemory;

/// Puts the cell of a reference behind the others, if it asks for one.
fn put_cell(
    cells: &mut IndexSet<u32>,
    names: &Names,
    resolution: &Resolution,
    kind: u8,
    at: u32,
    symbol: Symbol,
) -> Result<(), OutOfMemory>
    requires one { OneEach resolution.now.imports }
    ensures { OnOk result (put_cell names.now.names resolution.now.imports kind symbol (Some cells.old.keys) ≡ Some cells.new.keys) }
{
    if !asks_cell(kind, symbol) {
        return Ok(());
    }
    let Some(number) = cell_of(names, resolution, at, symbol) else {
        return Err(OutOfMemory);
    };
    cells.insert(number)?;
    Ok(())
}

/// Puts the cell that a window names behind the others.
fn put_named(
    cells: &mut IndexSet<u32>,
    names: &Names,
    resolution: &Resolution,
    symbols: &[Symbol],
    named: Named,
) -> Result<(), OutOfMemory>
    requires one { OneEach resolution.now.imports }
    ensures { OnOk result (put_named names.now.names resolution.now.imports symbols.now (Some cells.old.keys) named ≡ Some cells.new.keys) }
{
    match named {
        Named::Symbol {
            kind,
            place: _,
            addend: _,
            symbol,
        } => {
            let shown = symbol_at(symbols, symbol);
            put_cell(cells, names, resolution, kind, symbol, shown)?;
            Ok(())
        }
        Named::Type {
            place: _,
            number: _,
        } => Ok(()),
    }
}

/// Puts the cells that a part names behind the others.
fn put_row(
    cells: &mut IndexSet<u32>,
    names: &Names,
    resolution: &Resolution,
    symbols: &[Symbol],
    row: &[Named],
) -> Result<(), OutOfMemory>
    requires one { OneEach resolution.now.imports }
    ensures { OnOk result (put_row names.now.names resolution.now.imports symbols.now (Some cells.old.keys) row.now ≡ Some cells.new.keys) }
{
    for named in row {
        put_named(cells, names, resolution, symbols, *named)?;
    }
    Ok(())
}

/// Puts the cells that a part names behind the others, if it is of a kind.
fn put_part(
    cells: &mut IndexSet<u32>,
    program: Program<'_>,
    kind: u8,
    number: u32,
) -> Result<(), OutOfMemory>
    requires one { OneEach program.resolution.now.imports }
    ensures { OnOk result (put_part program.entry.names.now.names program.entry.resolution.now.imports program.entry.tables.now kind (Some cells.old.keys) number ≡ Some cells.new.keys) }
{
    if part_at(program.tables, number).chunk.kind != kind {
        return Ok(());
    }
    let symbols = program.tables.symbols.as_slice();
    let row = row_at(program.tables, number);
    put_row(cells, program.names, program.resolution, symbols, row)?;
    Ok(())
}

/// Puts the cells that live parts of a kind ask for behind the others, each once.
pub(crate) fn put_cells(
    cells: &mut IndexSet<u32>,
    program: Program<'_>,
    kind: u8,
    live: &[u32],
) -> Result<(), OutOfMemory>
    requires one { OneEach program.resolution.now.imports }
    ensures { OnOk result (put_parts program.entry.names.now.names program.entry.resolution.now.imports program.entry.tables.now kind (Some cells.old.keys) live.now ≡ Some cells.new.keys) }
{
    for number in live {
        put_part(cells, program, kind, *number)?;
    }
    Ok(())
}
