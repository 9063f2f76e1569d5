//! The table (Core 5.5.7) and the element section (Core 5.5.12).
ghost use Rattle.std.specs.Prelude.{◌≡◌, [], ◌∷◌, length, IfOk};
ghost use Rattle.link_program.specs.link_rules.Marks.{by_mode};
ghost use Rattle.link_image.specs.Sections.{elements_seen, table_seen, slots_offset};

use crate::shared::TABLE_BASE;
use made_symbols::Mode;
use std::alloc::Global;
use wasm_module::Element;
use wasm_types::{ConstExpr, Limits, TableType};
use wl_base::{OutOfMemory, Seq};

// The table of so many functions. Slot 0 stays empty, and the table can't grow.
fn table(slots: usize) -> Result<TableType, OutOfMemory>
    ensures { IfOk result (λ table. table ≡ table_seen slots) }
{
    let Ok(count) = u32::try_from(slots) else {
        return Err(OutOfMemory);
    };
    let Some(count) = count.checked_add(1) else {
        return Err(OutOfMemory);
    };
    let limits = Limits {
        min: count,
        max: Some(count),
    };
    Ok(TableType {
        funcref: true,
        limits,
    })
}

/// The table of so many functions; a shared output imports it, and has none.
pub(crate) fn tables(alloc: Global, mode: Mode, slots: usize) -> Result<Seq<TableType>, OutOfMemory>
    ensures { IfOk result (λ tables. tables ≡ by_mode mode (table_seen slots ∷ []) []) }
{
    match mode {
        Mode::Plain => {
            let table = table(slots)?;
            let mut tables = Seq::new(alloc);
            tables.push(table)?;
            Ok(tables)
        }
        Mode::Shared => Ok(Seq::new(alloc)),
    }
}

// Where the slots begin.
fn slots_offset(mode: Mode) -> ConstExpr
    ensures { result ≡ slots_offset mode }
{
    match mode {
        Mode::Plain => ConstExpr::I32(1),
        Mode::Shared => ConstExpr::Get(TABLE_BASE),
    }
}

/// One segment with all functions that have slots, from slot 1 on, or from the table's base; none without slots.
pub(crate) fn elements(
    alloc: Global,
    mode: Mode,
    takers: &[u32],
) -> Result<Seq<Element>, OutOfMemory>
    ensures { IfOk result (λ elements. elements ≡ elements_seen mode takers.now) }
{
    let mut elements = Seq::new(alloc);
    if !takers.is_empty() {
        let functions = Seq::from_slice(alloc, takers)?;
        elements.push(Element {
            table: None,
            offset: slots_offset(mode),
            functions,
        })?;
    }
    Ok(elements)
}
