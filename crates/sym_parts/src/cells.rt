//! What the cells hold at first.
ghost use Rattle.std.specs.Prelude.{◌≡◌, ◌==◌, ◌++◌, if◌then◌else◌, [], Some, map, slice_get, IfOk};
ghost use Rattle.run_rules.specs.declared.value.Value.TheVariants.{I32};
ghost use Rattle.run_rules.specs.Modules.{expr_value};
ghost use Rattle.run_machines.specs.declared.sym.SymCell.TheVariants.{Holds};
ghost use Rattle.link_worlds.specs.Worlds.{global_kind};
ghost use Rattle.link_program.specs.name_meanings.Kept.{type_kept};
ghost use Rattle.made_symbols.specs.Made.{stack_pointer};
ghost use Rattle.sym_parts.specs.Data.{import_cell, content_value, part_value, cell_seen};

use link_program::{Content, GlobalKey, ImportType, Resolution, Tables, chunk_number, part_at};
use made_symbols::STACK_POINTER;
use mark_bits::{Chunk, kinds as chunk_kinds};
use run_machines::SymCell;
use run_rules::Value;
use std::alloc::Global;
use wasm_types::{ConstExpr, ValType};
use wl_base::{OutOfMemory, Seq};

/// The type of an imported global's value.
fn global_kind(kind: &ImportType) -> ValType
    ensures { result ≡ global_kind (type_kept kind.now) }
{
    match kind {
        ImportType::GlobalVar(kind, _) => *kind,
        ImportType::Function(_) | ImportType::Untyped => ValType::I32,
    }
}

/// An imported cell.
fn import_cell(alloc: Global, resolution: &Resolution, number: u32) -> Result<SymCell, OutOfMemory>
    ensures { IfOk result (λ c. import_cell (slice_get resolution.now.imports number) ≡ Some c) }
{
    if number >= resolution.imports() {
        return Err(OutOfMemory);
    }
    let (module, field) = resolution.import(number);
    let module = Seq::from_slice(alloc, module)?;
    let field = Seq::from_slice(alloc, field)?;
    Ok(SymCell::Import {
        module,
        field,
        kind: global_kind(resolution.import_type(number)),
    })
}

/// The value of a constant expression; that of another global is none (Core 3.3.9).
fn expr_value(expr: ConstExpr) -> Option<Value>
    ensures { result ≡ expr_value [] expr }
{
    match expr {
        ConstExpr::I32(n) => Some(Value::I32(n.cast_unsigned())),
        ConstExpr::I64(n) => Some(Value::I64(n.cast_unsigned())),
        ConstExpr::Get(_) => None,
    }
}

/// The first value of a global of an object.
fn content_value(content: Content) -> Option<Value>
    ensures { result ≡ content_value content }
{
    match content {
        Content::Global { kind: _, value } => expr_value(value),
        Content::Function(_) | Content::Segment { align: _, flags: _ } | Content::Made => None,
    }
}

/// The first value of the global of a part's number.
fn part_value(tables: &Tables, number: Option<u32>) -> Option<Value>
    ensures { result ≡ part_value tables.now number }
{
    match number {
        Some(number) => content_value(part_at(tables, number).content),
        None => None,
    }
}

/// The first value of a global of the linker.
fn linker_value(top: u32, index: u32) -> Value
    ensures { result ≡ I32 (if index == stack_pointer then top else 0) }
{
    Value::I32(if index == STACK_POINTER { top } else { 0 })
}

/// What a cell holds at first. Another key than that of an import, of the linker or of an object is answered as want of memory.
fn cell(
    alloc: Global,
    tables: &Tables,
    resolution: &Resolution,
    top: u32,
    key: GlobalKey,
) -> Result<SymCell, OutOfMemory>
    ensures { IfOk result (λ c. cell_seen tables.now resolution.now.imports top key ≡ Some c) }
{
    match key {
        GlobalKey::Import(number) => import_cell(alloc, resolution, number),
        GlobalKey::Own { input: 0, index } => Ok(SymCell::Holds(Some(linker_value(top, index)))),
        GlobalKey::Own { input, index } => {
            let chunk = Chunk {
                input,
                kind: chunk_kinds::GLOBAL,
                index,
            };
            let number = chunk_number(&tables.chunks, chunk);
            Ok(SymCell::Holds(part_value(tables, number)))
        }
        GlobalKey::Got(_) | GlobalKey::Datum(_) => Err(OutOfMemory),
    }
}

/// What all cells hold at first; `top` is the top of the stack.
pub fn first_cells(
    alloc: Global,
    tables: &Tables,
    resolution: &Resolution,
    top: u32,
    keys: &[GlobalKey],
) -> Result<Seq<SymCell>, OutOfMemory>
    ensures { IfOk result (λ cells. map (cell_seen tables.now resolution.now.imports top) keys.now ≡ map Some cells) }
{
    let mut cells = Seq::new(alloc);
    for key in keys {
        let cell = cell(alloc, tables, resolution, top, *key)?;
        cells.push(cell)?;
    }
    Ok(cells)
}
