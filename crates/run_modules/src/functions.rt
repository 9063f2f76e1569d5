//! The functions of a module: imported ones, then those that are defined.
ghost use Rattle.std.specs.Prelude.{◌≡◌, ◌++◌, slice_get, IfOk, OnOk};
ghost use Rattle.run_rules.specs.Ops.{op_of};
ghost use Rattle.run_rules.specs.Modules.{imported_function as imported_function_of};
ghost use Rattle.run_rules.specs.Modules.{imported_functions as imported_functions_of};
ghost use Rattle.run_rules.specs.Modules.{typed as typed_of, coded as coded_of};
ghost use Rattle.run_rules.specs.Modules.{defined_functions};
ghost use Rattle.run_modules.specs.Cells.{cell_seen};
ghost use Rattle.run_modules.specs.Whole.{source_of};

use crate::clones::type_of;
use crate::ops::ops_of;
use run_rules::{Function, Source};
use std::alloc::Global;
use wasm_instr::Body;
use wasm_module::Module;
use wasm_types::{FuncType, Import, ImportKind};
use wl_base::{OutOfMemory, Seq};

/// A function from there, where there is a type of this index.
fn typed(
    alloc: Global,
    types: &[FuncType],
    index: u32,
    source: Source,
) -> Result<Option<Function>, OutOfMemory>
    ensures { IfOk result (λ function. function ≡ typed_of source (slice_get types.now index)) }
{
    match types.get(index as usize) {
        Some(kind) => {
            let kind = type_of(alloc, kind)?;
            Ok(Some(Function { kind, source }))
        }
        None => Ok(None),
    }
}

/// The function that an import is, where it is one: `Some(None)` where it has no type.
fn imported_function(
    alloc: Global,
    types: &[FuncType],
    import: &Import,
) -> Result<Option<Option<Function>>, OutOfMemory>
    ensures { IfOk result (λ function.
        function ≡ imported_function_of types.now import.now import.now.kind) }
{
    match import.kind {
        ImportKind::Function(index) => {
            let module = Seq::from_slice(alloc, import.module.as_slice())?;
            let field = Seq::from_slice(alloc, import.field.as_slice())?;
            let function = typed(alloc, types, index, Source::Host { module, field })?;
            Ok(Some(function))
        }
        _ => Ok(None),
    }
}

/// The imported functions.
fn imported_functions(
    alloc: Global,
    types: &[FuncType],
    imports: &[Import],
) -> Result<Seq<Option<Function>>, OutOfMemory>
    ensures { IfOk result (λ functions. functions ≡ imported_functions_of types.now imports.now) }
{
    let mut functions = Seq::new(alloc);
    for import in imports {
        if let Some(function) = imported_function(alloc, types, import)? {
            functions.push(function)?;
        }
    }
    Ok(functions)
}

/// What a body is.
fn coded(
    alloc: Global,
    types: &[FuncType],
    cells: &[u32],
    body: &Body,
) -> Result<Source, OutOfMemory>
    ensures { IfOk result (λ source.
        source ≡ coded_of (op_of types.now (cell_seen cells.now)) body.now) }
{
    let locals = Seq::from_slice(alloc, body.locals.as_slice())?;
    let code = ops_of(alloc, types, cells, body.code.as_slice())?;
    Ok(Source::Code { locals, code })
}

/// What the function of this place runs, among those that are defined.
fn source_at(
    alloc: Global,
    types: &[FuncType],
    cells: &[u32],
    bodies: &[Body],
    place: usize,
) -> Result<Source, OutOfMemory>
    ensures { IfOk result (λ source.
        source ≡ source_of (op_of types.now (cell_seen cells.now)) (slice_get bodies.now place)) }
{
    match bodies.get(place) {
        Some(body) => coded(alloc, types, cells, body),
        None => Ok(Source::Nowhere),
    }
}

/// The functions that are defined, behind these, by the indexes of their types and their bodies.
fn add_defined(
    alloc: Global,
    to: &mut Seq<Option<Function>>,
    types: &[FuncType],
    cells: &[u32],
    indexes: &[u32],
    bodies: &[Body],
) -> Result<(), OutOfMemory>
    ensures { OnOk result
        (to.new ≡ to.old ++ defined_functions (op_of types.now (cell_seen cells.now)) types.now
        indexes.now bodies.now) }
{
    for (place, index) in indexes.iter().enumerate() {
        let source = source_at(alloc, types, cells, bodies, place)?;
        to.push(typed(alloc, types, *index, source)?)?;
    }
    Ok(())
}

/// All functions of a module, where imported globals are these cells.
pub(crate) fn functions_of(
    alloc: Global,
    cells: &[u32],
    m: &Module,
) -> Result<Seq<Option<Function>>, OutOfMemory>
    ensures { IfOk result (λ functions.
        functions ≡ imported_functions_of m.now.types m.now.imports ++ defined_functions (op_of
        m.now.types (cell_seen cells.now)) m.now.types m.now.functions m.now.bodies) }
{
    let types = m.types.as_slice();
    let mut functions = imported_functions(alloc, types, m.imports.as_slice())?;
    let indexes = m.functions.as_slice();
    add_defined(
        alloc,
        &mut functions,
        types,
        cells,
        indexes,
        m.bodies.as_slice(),
    )?;
    Ok(functions)
}
