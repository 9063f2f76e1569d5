//! The index spaces of a module (Core 2.5.1): what is imported comes first.
ghost use Rattle.std.specs.Prelude.{◌≡◌, IfOk};
ghost use Rattle.wasm_valid.specs.Spaces.{a_function, a_table, a_memory, a_global, imported, functions_of, tables_of, memories_of, imported_globals, globals_of, spaces_of};

use std::alloc::Global;
use wasm_module::Module;
use wasm_types::{GlobalType, Import, ImportKind, Limits, TableType};
use wl_base::{OutOfMemory, Seq};

/// What the indexes of a module name (Core 2.5.1), imports first.
#[derive(Drop)]
pub struct Spaces {
    /// Of each function the index of its type.
    pub functions: Seq<u32>,
    /// The types of tables.
    pub tables: Seq<TableType>,
    /// The limits of memories, in pages of 64 KiB.
    pub memories: Seq<Limits>,
    /// The types of the globals that are imported.
    pub imported_globals: Seq<GlobalType>,
    /// The types of all globals.
    pub globals: Seq<GlobalType>,
}

/// The index of a function's type, where an import is one.
fn a_function(kind: ImportKind) -> Option<u32>
    ensures { result ≡ a_function kind }
{
    match kind {
        ImportKind::Function(index) => Some(index),
        _ => None,
    }
}

/// The type of a table, where an import is one.
fn a_table(kind: ImportKind) -> Option<TableType>
    ensures { result ≡ a_table kind }
{
    match kind {
        ImportKind::Table(table) => Some(table),
        _ => None,
    }
}

/// The limits of a memory, where an import is one.
fn a_memory(kind: ImportKind) -> Option<Limits>
    ensures { result ≡ a_memory kind }
{
    match kind {
        ImportKind::Memory(limits) => Some(limits),
        _ => None,
    }
}

/// The type of a global, where an import is one.
fn a_global(kind: ImportKind) -> Option<GlobalType>
    ensures { result ≡ a_global kind }
{
    match kind {
        ImportKind::GlobalVar(global) => Some(global),
        _ => None,
    }
}

/// The type indices of the functions that are imported.
fn functions_in(alloc: Global, imports: &[Import]) -> Result<Seq<u32>, OutOfMemory>
    ensures { IfOk result (λ found. found ≡ imported a_function imports.now) }
{
    let mut found = Seq::new(alloc);
    for import in imports {
        if let Some(index) = a_function(import.kind) {
            found.push(index)?;
        }
    }
    Ok(found)
}

/// The types of the tables that are imported.
fn tables_in(alloc: Global, imports: &[Import]) -> Result<Seq<TableType>, OutOfMemory>
    ensures { IfOk result (λ found. found ≡ imported a_table imports.now) }
{
    let mut found = Seq::new(alloc);
    for import in imports {
        if let Some(table) = a_table(import.kind) {
            found.push(table)?;
        }
    }
    Ok(found)
}

/// The limits of the memories that are imported.
fn memories_in(alloc: Global, imports: &[Import]) -> Result<Seq<Limits>, OutOfMemory>
    ensures { IfOk result (λ found. found ≡ imported a_memory imports.now) }
{
    let mut found = Seq::new(alloc);
    for import in imports {
        if let Some(limits) = a_memory(import.kind) {
            found.push(limits)?;
        }
    }
    Ok(found)
}

/// The types of the globals that are imported.
fn globals_in(alloc: Global, imports: &[Import]) -> Result<Seq<GlobalType>, OutOfMemory>
    ensures { IfOk result (λ found. found ≡ imported a_global imports.now) }
{
    let mut found = Seq::new(alloc);
    for import in imports {
        if let Some(global) = a_global(import.kind) {
            found.push(global)?;
        }
    }
    Ok(found)
}

/// The type indices of all functions.
fn functions(alloc: Global, m: &Module) -> Result<Seq<u32>, OutOfMemory>
    ensures { IfOk result (λ found. found ≡ functions_of m.now) }
{
    let mut found = functions_in(alloc, m.imports.as_slice())?;
    for index in m.functions.as_slice() {
        found.push(*index)?;
    }
    Ok(found)
}

/// The types of all tables.
fn tables(alloc: Global, m: &Module) -> Result<Seq<TableType>, OutOfMemory>
    ensures { IfOk result (λ found. found ≡ tables_of m.now) }
{
    let mut found = tables_in(alloc, m.imports.as_slice())?;
    for table in m.tables.as_slice() {
        found.push(*table)?;
    }
    Ok(found)
}

/// The limits of all memories.
fn memories(alloc: Global, m: &Module) -> Result<Seq<Limits>, OutOfMemory>
    ensures { IfOk result (λ found. found ≡ memories_of m.now) }
{
    let mut found = memories_in(alloc, m.imports.as_slice())?;
    for limits in m.memories.as_slice() {
        found.push(*limits)?;
    }
    Ok(found)
}

/// The types of all globals.
fn globals(alloc: Global, m: &Module) -> Result<Seq<GlobalType>, OutOfMemory>
    ensures { IfOk result (λ found. found ≡ globals_of m.now) }
{
    let mut found = globals_in(alloc, m.imports.as_slice())?;
    for global in m.globals.as_slice() {
        found.push(global.kind)?;
    }
    Ok(found)
}

/// The index spaces of a module.
pub fn spaces_in(alloc: Global, m: &Module) -> Result<Spaces, OutOfMemory>
    ensures { IfOk result (λ s. s ≡ spaces_of m.now) }
{
    Ok(Spaces {
        functions: functions(alloc, m)?,
        tables: tables(alloc, m)?,
        memories: memories(alloc, m)?,
        imported_globals: globals_in(alloc, m.imports.as_slice())?,
        globals: globals(alloc, m)?,
    })
}
