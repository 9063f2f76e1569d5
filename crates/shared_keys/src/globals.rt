//! The globals of a shared output: the imports of the linker's, the cells of foreign addresses, the other imports; then its own, the cells
//! of its own addresses, and the addresses of exported data.
ghost use Rattle.std.specs.Prelude.{◌≡◌, ◌++◌, ◌∷◌, [], Some, nat_eq, map, filter, OnOk, IfOk};
ghost use Rattle.indexmap.specs.IndexSet.{insert_all};
ghost use Rattle.link_keys.specs.link_program.declared.keys.GlobalKey.TheVariants as globals;
ghost use Rattle.link_keys.specs.Lists.{global_imports};
ghost use Rattle.shared_keys.specs.Cells.{OneEach};
ghost use Rattle.shared_keys.specs.Lists.{is_own_cell, own_cells, import_numbers, globals_listed};

use crate::foreign::put_cells;
use indexmap::IndexSet;
use link_keys::{
    GlobalKey, Marks, Program, Winner, flag_at, is_global_import, push_data, push_own_globals,
    put_numbers,
};
use link_program::{GotKey, Resolution};
use mark_bits::kinds as chunk_kinds;
use std::alloc::Global;
use wl_base::OutOfMemory;

/// Puts the imported globals that are named behind the others, each once.
fn put_imports(
    numbers: &mut IndexSet<u32>,
    resolution: &Resolution,
    flags: &[bool],
) -> Result<(), OutOfMemory>
    ensures { OnOk result (numbers.new.keys ≡ insert_all nat_eq numbers.old.keys (global_imports resolution.now.imports flags.now)) }
{
    for number in 0..resolution.imports() {
        if flag_at(flags, number) && is_global_import(resolution, number) {
            numbers.insert(number)?;
        }
    }
    Ok(())
}

/// The numbers of the imported globals, in their order.
fn import_numbers(
    alloc: Global,
    program: Program<'_>,
    live: &[u32],
    flags: &[bool],
) -> Result<IndexSet<u32>, OutOfMemory>
    requires one { OneEach program.resolution.now.imports }
    ensures { IfOk result (λ numbers. import_numbers program.entry.names.now.names program.entry.resolution.now.imports program.entry.resolution.now.made
        program.entry.tables.now live.now flags.now ≡ Some numbers.keys) }
{
    let mut numbers = IndexSet::new(alloc);
    put_numbers(&mut numbers, program.resolution.made())?;
    put_cells(&mut numbers, program, chunk_kinds::FUNCTION, live)?;
    put_cells(&mut numbers, program, chunk_kinds::SEGMENT, live)?;
    put_imports(&mut numbers, program.resolution, flags)?;
    Ok(numbers)
}

/// Puts imports behind the keys.
fn push_imports(keys: &mut Vec<GlobalKey>, numbers: &[u32]) -> Result<(), OutOfMemory>
    ensures { OnOk result (keys.new.items ≡ keys.old.items ++ map globals.Import numbers.now) }
{
    for number in numbers {
        keys.push(GlobalKey::Import(*number))?;
    }
    Ok(())
}

/// Whether a cell is of an address of the link's own.
fn is_own_cell(cell: GotKey) -> bool
    ensures { result ≡ is_own_cell cell }
{
    match cell {
        GotKey::Here(_) => true,
        GotKey::Import(_) | GotKey::Null(_) => false,
    }
}

/// Puts a cell behind the keys, if it is of an address of the link's own.
fn push_own_cell(keys: &mut Vec<GlobalKey>, cell: GotKey) -> Result<(), OutOfMemory>
    ensures { OnOk result (keys.new.items ≡ keys.old.items ++ own_cells (cell ∷ [])) }
{
    if is_own_cell(cell) {
        keys.push(GlobalKey::Got(cell))?;
    }
    Ok(())
}

/// Puts the cells of the link's own addresses behind the keys.
fn push_own_cells(keys: &mut Vec<GlobalKey>, cells: &[GotKey]) -> Result<(), OutOfMemory>
    ensures { OnOk result (keys.new.items ≡ keys.old.items ++ own_cells cells.now) }
{
    for cell in cells {
        push_own_cell(keys, *cell)?;
    }
    Ok(())
}

/// The globals of a shared output, where its live parts name these imports and read these cells.
pub fn globals_listed(
    alloc: Global,
    program: Program<'_>,
    live: &[u32],
    exports: &[Winner],
    marks: &Marks,
) -> Result<Vec<GlobalKey>, OutOfMemory>
    requires one { OneEach program.resolution.now.imports }
    ensures { IfOk result (λ keys. globals_listed program.entry.names.now.names program.entry.resolution.now.imports program.entry.resolution.now.made
        program.entry.tables.now live.now exports.now marks.now ≡ Some keys.items) }
{
    let numbers = import_numbers(alloc, program, live, marks.imports())?;
    let mut keys = Vec::new(alloc);
    push_imports(&mut keys, numbers.as_slice())?;
    push_own_globals(&mut keys, false, program.tables, live)?;
    push_own_cells(&mut keys, marks.cells())?;
    push_data(&mut keys, exports)?;
    Ok(keys)
}
