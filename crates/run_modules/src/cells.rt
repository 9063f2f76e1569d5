//! Imported globals, and the cells that a module's globals are.
ghost use Rattle.std.specs.Prelude.{◌≡◌, ◌++◌, map, Some, IfOk, OnOk};
ghost use Rattle.run_rules.specs.Modules.{imported_globals};
ghost use Rattle.run_rules.specs.Modules.{first_value as first_value_of};
ghost use Rattle.run_rules.specs.Modules.{first_values as first_values_of};
ghost use Rattle.run_rules.specs.Modules.{expr_value as expr_value_of, cells_of as cells_of_module};
ghost use Rattle.run_rules.specs.Modules.{found_in as found_in_of};
ghost use Rattle.wasm_module.specs.declared.parts.ModuleGlobal.{ModuleGlobal};
ghost use Rattle.run_rules.specs.Numbers.{type_of, value_of};
ghost use Rattle.run_modules.specs.Cells.{cells_from, cell_seen};

use crate::keys::{cell_of, first_places, key_in};
use run_rules::{GivenGlobal, Session, Value};
use std::alloc::Global;
use wasm_module::ModuleGlobal;
use wasm_types::{ConstExpr, Import, ImportKind, ValType};
use wl_base::{OutOfMemory, Seq};

/// The cell of each imported global.
pub(crate) fn imported_cells(alloc: Global, imports: &[Import]) -> Result<Seq<u32>, OutOfMemory>
    ensures { IfOk result (λ cells.
        cells ≡ cells_from (imported_globals imports.now) 0 (imported_globals imports.now)) }
{
    let places = first_places(alloc, imports)?;
    let mut cells = Seq::new(alloc);
    for import in imports {
        if let Some(key) = key_in(import) {
            let cell = cell_of(&places, key, cells.len())?;
            cells.push(cell)?;
        }
    }
    Ok(cells)
}

/// The cell of a global, by the cells of imported ones.
pub(crate) fn cell_at(cells: &[u32], global: u32) -> u32
    ensures { result ≡ cell_seen cells.now global }
{
    match cells.get(global as usize) {
        Some(cell) => *cell,
        None => global,
    }
}

/// The type of a value.
fn type_at(v: Value) -> ValType
    ensures { result ≡ type_of v }
{
    match v {
        Value::I32(_) => ValType::I32,
        Value::I64(_) => ValType::I64,
        Value::F32(_) => ValType::F32,
        Value::F64(_) => ValType::F64,
    }
}

/// The first value that is given for an imported global.
fn found_in(globals: &[GivenGlobal], from: &[u8], field: &[u8], kind: ValType) -> Option<Value>
    ensures { result ≡ found_in_of globals.now from.now field.now kind }
{
    for given in globals {
        if given.module.as_slice() == from
            && given.field.as_slice() == field
            && type_at(given.value) == kind
        {
            return Some(given.value);
        }
    }
    None
}

/// The value of a type with no bit set.
fn zero_of(kind: ValType) -> Value
    ensures { result ≡ value_of kind 0 }
{
    match kind {
        ValType::I32 => Value::I32(0),
        ValType::I64 => Value::I64(0),
        ValType::F32 => Value::F32(0),
        ValType::F64 => Value::F64(0),
    }
}

/// The first value of an imported global.
pub fn first_value(session: &Session, from: &[u8], field: &[u8], kind: ValType) -> Value
    ensures { result ≡ first_value_of session.now from.now field.now kind }
{
    match found_in(session.globals.as_slice(), from, field, kind) {
        Some(value) => value,
        None => zero_of(kind),
    }
}

/// The first values of imported globals.
pub(crate) fn first_values(
    alloc: Global,
    session: &Session,
    imports: &[Import],
) -> Result<Seq<Value>, OutOfMemory>
    ensures { IfOk result (λ firsts.
        firsts ≡ first_values_of session.now (imported_globals imports.now)) }
{
    let mut firsts = Seq::new(alloc);
    for import in imports {
        if let ImportKind::GlobalVar(kind) = import.kind {
            firsts.push(first_value(
                session,
                import.module.as_slice(),
                import.field.as_slice(),
                kind.kind,
            ))?;
        }
    }
    Ok(firsts)
}

/// The value of a constant expression, by the first values of imported globals.
pub(crate) fn expr_value(firsts: &[Value], expr: ConstExpr) -> Option<Value>
    ensures { result ≡ expr_value_of firsts.now expr }
{
    match expr {
        ConstExpr::I32(n) => Some(Value::I32(n.cast_unsigned())),
        ConstExpr::I64(n) => Some(Value::I64(n.cast_unsigned())),
        ConstExpr::Get(k) => firsts.get(k as usize).copied(),
    }
}

/// The cells at first: imports, then the module's own globals.
pub(crate) fn cells_of(
    alloc: Global,
    firsts: &[Value],
    globals: &[ModuleGlobal],
) -> Result<Seq<Option<Value>>, OutOfMemory>
    ensures { IfOk result (λ cells. cells ≡ cells_of_module firsts.now globals.now) }
{
    let mut cells = Seq::new(alloc);
    for value in firsts {
        cells.push(Some(*value))?;
    }
    add_globals(&mut cells, firsts, globals)?;
    Ok(cells)
}

/// The first values of the module's own globals, behind these.
fn add_globals(
    cells: &mut Seq<Option<Value>>,
    firsts: &[Value],
    globals: &[ModuleGlobal],
) -> Result<(), OutOfMemory>
    ensures { OnOk result
        (cells.new ≡ cells.old ++ map (λ (g : ModuleGlobal). expr_value_of firsts.now g.value)
        globals.now) }
{
    for global in globals {
        cells.push(expr_value(firsts, global.value))?;
    }
    Ok(())
}
