//! The table and the memory of a module: what is imported comes before what is defined (Core 2.5.11).
ghost use Rattle.std.specs.Prelude.{◌≡◌, ◌++◌};
ghost use Rattle.run_rules.specs.Modules.{first, imported_tables, imported_memories, least_of};
ghost use Rattle.run_rules.specs.Modules.{first_pages as first_pages_of};

use run_rules::Session;
use wasm_types::{Import, ImportKind, Limits, TableType};

/// The first imported table.
fn imported_table(imports: &[Import]) -> Option<TableType>
    ensures { result ≡ first (imported_tables imports.now) }
{
    for import in imports {
        if let ImportKind::Table(table) = import.kind {
            return Some(table);
        }
    }
    None
}

/// The first imported memory.
fn imported_memory(imports: &[Import]) -> Option<Limits>
    ensures { result ≡ first (imported_memories imports.now) }
{
    for import in imports {
        if let ImportKind::Memory(memory) = import.kind {
            return Some(memory);
        }
    }
    None
}

/// The first table.
pub(crate) fn first_table(imports: &[Import], tables: &[TableType]) -> Option<TableType>
    ensures { result ≡ first (imported_tables imports.now ++ tables.now) }
{
    match imported_table(imports) {
        Some(table) => Some(table),
        None => tables.first().copied(),
    }
}

/// How many slots the first table has, or 0.
pub(crate) fn first_slots(imports: &[Import], tables: &[TableType]) -> u32
    ensures { result ≡ least_of (first (imported_tables imports.now ++ tables.now)) }
{
    match first_table(imports, tables) {
        Some(table) => table.limits.min,
        None => 0,
    }
}

/// The first memory.
pub(crate) fn first_memory(imports: &[Import], memories: &[Limits]) -> Option<Limits>
    ensures { result ≡ first (imported_memories imports.now ++ memories.now) }
{
    match imported_memory(imports) {
        Some(memory) => Some(memory),
        None => memories.first().copied(),
    }
}

/// The pages that the memory has at first.
pub(crate) fn first_pages(session: &Session, imports: &[Import], memories: &[Limits]) -> u32
    ensures { result ≡ first_pages_of session.now (imported_memories imports.now) memories.now }
{
    match imported_memory(imports) {
        Some(memory) => match session.pages {
            Some(pages) => pages,
            None => memory.min,
        },
        None => match memories.first() {
            Some(memory) => memory.min,
            None => 0,
        },
    }
}
