//! A module as a world, and how a run of it begins.
ghost use Rattle.std.specs.Prelude.{◌≡◌, ◌++◌, true, map, option_map, replicate, None, IfOk};
ghost use Rattle.std.specs.List.{list_all};
ghost use Rattle.run_rules.specs.Memory.{zeros};
ghost use Rattle.run_rules.specs.Modules.{first, imported_memories, target_of as target_of_index};
ghost use Rattle.run_rules.specs.Modules.{export_of};
ghost use Rattle.run_rules.specs.Modules.{table_of as table_of_type, most_pages as most_pages_of};
ghost use Rattle.run_rules.specs.Modules.{with_elements, with_segments, element_fits, least_of};
ghost use Rattle.run_rules.specs.Modules.{at_first, module_world as world_of_module, module_start};
ghost use Rattle.run_modules.specs.Whole.{world_with};
ghost use Rattle.run_modules.specs.Cells.{cell_seen};
ghost use Rattle.run_modules.specs.Fits.{pages_in, all_elements_fit, all_segments_fit};
ghost use Rattle.run_modules.specs.Fits.{first_outside};

use crate::cells::{cell_at, cells_of, first_values, imported_cells};
use crate::functions::functions_of;
use crate::imported::{first_memory, first_pages, first_table};
use crate::opcodes::{FUNCTION_EXPORT, GLOBAL_EXPORT};
use crate::starts::{add_elements, add_segments};
use run_rules::{Exported, Session, Target, Value, World};
use std::alloc::Global;
use wasm_module::{Element, Export, Module};
use wasm_types::TableType;
use wl_base::{OutOfMemory, Seq};

/// How many pages a memory without a greatest size may have.
const MOST_PAGES: u32 = 65_536;

/// The bytes of a page.
const PAGE: usize = 65_536;

/// What an export leads to.
fn target_of(cells: &[u32], export: &Export) -> Target
    ensures { result ≡ target_of_index (cell_seen cells.now) export.now.kind export.now.index }
{
    match export.kind {
        FUNCTION_EXPORT => Target::ToFunction(export.index),
        GLOBAL_EXPORT => Target::ToCell(cell_at(cells, export.index)),
        _ => Target::Elsewhere,
    }
}

/// The exports of a module.
fn exports_of(
    alloc: Global,
    cells: &[u32],
    exports: &[Export],
) -> Result<Seq<Exported>, OutOfMemory>
    ensures { IfOk result (λ all. all ≡ map (export_of (cell_seen cells.now)) exports.now) }
{
    let mut all = Seq::new(alloc);
    for export in exports {
        let name = Seq::from_slice(alloc, export.name.as_slice())?;
        let target = target_of(cells, export);
        all.push(Exported { name, target })?;
    }
    Ok(all)
}

/// So many slots, with all element segments.
fn slots_of(
    alloc: Global,
    firsts: &[Value],
    elements: &[Element],
    count: u32,
) -> Result<Seq<Option<u32>>, OutOfMemory>
    requires { list_all (element_fits firsts.now count) elements.now ≡ true }
    ensures { IfOk result (λ slots. slots ≡ with_elements firsts.now elements.now (replicate count None)) }
{
    let mut slots = Vec::new(alloc);
    slots.resize(count as usize, None)?;
    add_elements(alloc, firsts, elements, slots.as_mut_slice())?;
    Ok(Seq::from_vec(slots))
}

/// The table of a module, by its type.
fn table_of(
    alloc: Global,
    firsts: &[Value],
    elements: &[Element],
    table: Option<TableType>,
) -> Result<Option<Seq<Option<u32>>>, OutOfMemory>
    requires { list_all (element_fits firsts.now (least_of table)) elements.now ≡ true }
    ensures { IfOk result (λ slots. slots ≡ table_of_type firsts.now elements.now table) }
{
    match table {
        Some(table) => {
            let slots = slots_of(alloc, firsts, elements, table.limits.min)?;
            Ok(Some(slots))
        }
        None => Ok(None),
    }
}

/// How many pages the memory of a module may have.
fn most_pages(m: &Module) -> Option<u32>
    ensures { result ≡ option_map most_pages_of (first (imported_memories m.now.imports ++
        m.now.memories)) }
{
    match first_memory(m.imports.as_slice(), m.memories.as_slice()) {
        Some(memory) => match memory.max {
            Some(most) => Some(most),
            None => Some(MOST_PAGES),
        },
        None => None,
    }
}

/// The memory of a module at first.
fn memory_of(
    alloc: Global,
    session: &Session,
    firsts: &[Value],
    m: &Module,
) -> Result<Seq<u8>, OutOfMemory>
    requires { all_segments_fit session.now firsts.now m.now ≡ true }
    ensures { IfOk result (λ memory.
        memory ≡ with_segments firsts.now m.now.data_segments (zeros (pages_in session.now m.now))) }
{
    let pages = first_pages(session, m.imports.as_slice(), m.memories.as_slice());
    let mut memory = Vec::new(alloc);
    memory.resize(PAGE * pages as usize, 0)?;
    add_segments(firsts, m.data_segments.as_slice(), memory.as_mut_slice());
    Ok(Seq::from_vec(memory))
}

/// The module as a world, where imported globals have these first values and these cells.
#[tactic(auto, using(crate::proofs::Seen::world_made))]
fn world_of(
    alloc: Global,
    firsts: &[Value],
    cells: &[u32],
    m: &Module,
) -> Result<World, OutOfMemory>
    requires { all_elements_fit firsts.now m.now ≡ true }
    ensures { IfOk result (λ world. world ≡ world_with m.now firsts.now (cell_seen cells.now)) }
{
    let functions = functions_of(alloc, cells, m)?;
    let table = first_table(m.imports.as_slice(), m.tables.as_slice());
    let table = table_of(alloc, firsts, m.elements.as_slice(), table)?;
    let exports = exports_of(alloc, cells, m.exports.as_slice())?;
    Ok(World {
        functions,
        table,
        exports,
        memory: most_pages(m),
    })
}

/// A module as a world, and how a run of it begins.
#[derive(Debug, Drop)]
pub struct ModuleWorld {
    /// What the machine asks.
    pub world: World,
    /// The values of cells at first.
    pub cells: Seq<Option<Value>>,
    /// The memory at first.
    pub memory: Seq<u8>,
}

/// A module as a world under a session that gives its imports, where each segment fits (Core 4.5.4).
///
/// # Errors
/// Want of memory. A module that imports 2^32 globals is answered so too.
#[tactic(auto, using(crate::proofs::Seen::beginning))]
pub fn module_world(
    alloc: Global,
    session: &Session,
    m: &Module,
) -> Result<ModuleWorld, OutOfMemory>
    requires { first_outside session.now m.now ≡ None }
    ensures world { IfOk result (λ made. made.world ≡ world_of_module session.now m.now) }
    ensures start { IfOk result (λ made.
        at_first made.cells made.memory ≡ module_start session.now m.now) }
{
    let firsts = first_values(alloc, session, m.imports.as_slice())?;
    let numbers = imported_cells(alloc, m.imports.as_slice())?;
    let world = world_of(alloc, firsts.as_slice(), numbers.as_slice(), m)?;
    let cells = cells_of(alloc, firsts.as_slice(), m.globals.as_slice())?;
    let memory = memory_of(alloc, session, firsts.as_slice(), m)?;
    Ok(ModuleWorld {
        world,
        cells,
        memory,
    })
}
