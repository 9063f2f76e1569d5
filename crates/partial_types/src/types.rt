//! All types of the object, in their order.
ghost use Rattle.std.specs.Prelude.{◌≡◌, [], Some, map, filter, fold, slice_get, IfOk, OnOk};
ghost use Rattle.partial_imports.specs.link_program.name_entries.Fits.{FitsObjects};
ghost use Rattle.partial_imports.specs.link_program.link_rules.Program.{Program as Rules};
ghost use Rattle.partial_imports.specs.link_program.made_symbols.declared.mode.Mode.TheVariants.{Plain};
ghost use Rattle.partial_imports.specs.link_program.Program.{IsProgramOf};
ghost use Rattle.partial_imports.specs.partial_rules.Partial as partial;
ghost use Rattle.partial_imports.specs.Opens.{open_seen, told_open};
ghost use Rattle.partial_types.specs.Added.{with_open, with_function, with_window, with_row};

use crate::adding::{add_content, add_numbered, add_symbol};
use linking_section::SymbolKind;
use partial_imports::{Entries, Named, Open, Program, Tables, part_at, row_at};
use std::alloc::Global;
use type_merge::TypeTable;
use wasm_types::FuncType;
use wl_base::OutOfMemory;

/// Adds the type of an open function.
fn add_open(table: &mut TypeTable, entries: Entries<'_>, found: Open) -> Result<(), OutOfMemory>
    requires { FitsObjects entries }
    ensures { OnOk result (table.new ≡ with_open entries.entry.objects.now table.old found) }
{
    match found.kind {
        SymbolKind::Function => add_symbol(table, entries, found.import.unwrap_or(found.at)),
        SymbolKind::Datum | SymbolKind::GlobalVar | SymbolKind::Section | SymbolKind::Table => {
            Ok(())
        }
    }
}

/// Adds the types of open functions.
fn add_opens(table: &mut TypeTable, entries: Entries<'_>, opens: &[Open]) -> Result<(), OutOfMemory>
    requires { FitsObjects entries }
    ensures { OnOk result (table.new ≡ fold (with_open entries.entry.objects.now) table.old opens.now) }
{
    for found in opens {
        add_open(table, entries, *found)?;
    }
    Ok(())
}

/// Adds the type of a function.
fn add_function(table: &mut TypeTable, tables: &Tables, part: u32) -> Result<(), OutOfMemory>
    ensures { OnOk result (table.new ≡ with_function tables.now table.old part) }
{
    let part = part_at(tables, part);
    add_content(table, tables.types.as_slice(), part.content)
}

/// Adds the types of functions.
fn add_functions(
    table: &mut TypeTable,
    tables: &Tables,
    functions: &[u32],
) -> Result<(), OutOfMemory>
    ensures { OnOk result (table.new ≡ fold (with_function tables.now) table.old functions.now) }
{
    for part in functions {
        add_function(table, tables, *part)?;
    }
    Ok(())
}

/// Adds the type that a window names.
fn add_window(table: &mut TypeTable, types: &[FuncType], named: Named) -> Result<(), OutOfMemory>
    ensures { OnOk result (table.new ≡ with_window types.now table.old named) }
{
    match named {
        Named::Symbol {
            kind: _,
            place: _,
            addend: _,
            symbol: _,
        } => Ok(()),
        Named::Type { place: _, number } => add_numbered(table, types, number),
    }
}

/// Adds the types that the windows of a function name.
fn add_row(table: &mut TypeTable, types: &[FuncType], row: &[Named]) -> Result<(), OutOfMemory>
    ensures { OnOk result (table.new ≡ fold (with_window types.now) table.old row.now) }
{
    for named in row {
        add_window(table, types, *named)?;
    }
    Ok(())
}

/// Adds the types that the windows of functions name.
fn add_rows(table: &mut TypeTable, tables: &Tables, functions: &[u32]) -> Result<(), OutOfMemory>
    ensures { OnOk result (table.new ≡ fold (with_row tables.now) table.old functions.now) }
{
    for part in functions {
        add_row(table, tables.types.as_slice(), row_at(tables, *part))?;
    }
    Ok(())
}

/// The types of open functions, of functions by the numbers of their parts, and of their windows.
fn types_in(
    alloc: Global,
    tables: &Tables,
    entries: Entries<'_>,
    opens: &[Open],
    functions: &[u32],
) -> Result<TypeTable, OutOfMemory>
    requires { FitsObjects entries }
    ensures { IfOk result (λ t. t ≡ fold (with_row tables.now) (fold (with_function tables.now) (fold (with_open entries.entry.objects.now) [] opens.now) functions.now) functions.now) }
{
    let mut table = TypeTable::new(alloc);
    add_opens(&mut table, entries, opens)?;
    add_functions(&mut table, tables, functions)?;
    add_rows(&mut table, tables, functions)?;
    Ok(table)
}

/// The types of the object that a partial link makes of a program, by its open names and its kept functions. `entries` is the view of
/// the program's objects.
pub fn types_of(
    alloc: Global,
    program: Program<'_>,
    entries: Entries<'_>,
    opens: &[Open],
    functions: &[u32],
) -> Result<TypeTable, OutOfMemory>
    requires fits { FitsObjects entries }
    requires objects { entries.objects.now ≡ program.objects.now }
    ensures { IfOk result (λ t. (p : Rules) → IsProgramOf Plain program.entry p → map (open_seen p.objects) opens.now ≡ map (told_open p) (filter (partial.is_open p) (partial.standing p))
        → map (slice_get p.parts) functions.now ≡ map Some (partial.kept p 0) → t ≡ partial.types p) }
{
    let table = types_in(alloc, program.tables, entries, opens, functions)?;
    Ok(table)
}
