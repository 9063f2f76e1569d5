//! The import section (Core 5.5.5).
ghost use Rattle.std.specs.Prelude.{◌≡◌, ◌++◌, ◌<◌, length, slice_get, filter_map, Some, IfOk, OnOk, drop};
ghost use Rattle.std.specs.Option.{option_to_list};
ghost use Rattle.link_program.specs.name_meanings.Kept.{type_kept};
ghost use Rattle.link_image.specs.Imports.{kind_seen, import_seen, function_seen, global_seen, functions_seen};

use link_program::{FunctionKey, GlobalKey, ImportType, Resolution};
use std::alloc::Global;
use wasm_types::{GlobalType, Import, ImportKind};
use wl_base::{OutOfMemory, Seq};

// What is imported, by its type and, of a function, the number of the type.
fn kind_of(kind: &ImportType, number: u32) -> ImportKind
    ensures { result ≡ kind_seen (type_kept kind.now) number }
{
    match kind {
        ImportType::Function(_) => ImportKind::Function(number),
        ImportType::GlobalVar(kind, var) => ImportKind::GlobalVar(GlobalType {
            kind: *kind,
            var: *var,
        }),
        ImportType::Untyped => ImportKind::Function(0),
    }
}

// The import of a number, under its module and field.
fn import(
    alloc: Global,
    resolution: &Resolution,
    at: u32,
    number: u32,
) -> Result<Option<Import>, OutOfMemory>
    ensures { IfOk result (λ i. i ≡ import_seen resolution.now.imports at number) }
{
    if at >= resolution.imports() {
        return Ok(None);
    }
    let (place, field) = resolution.import(at);
    let module = Seq::from_slice(alloc, place)?;
    let field = Seq::from_slice(alloc, field)?;
    let kind = kind_of(resolution.import_type(at), number);
    Ok(Some(Import {
        module,
        field,
        kind,
    }))
}

// Adds what is there.
fn add(imports: &mut Seq<Import>, import: Option<Import>) -> Result<(), OutOfMemory>
    ensures { OnOk result (imports.new ≡ imports.old ++ option_to_list import) }
{
    match import {
        Some(import) => imports.push(import),
        None => Ok(()),
    }
}

fn function_import(
    alloc: Global,
    resolution: &Resolution,
    key: FunctionKey,
    number: u32,
) -> Result<Option<Import>, OutOfMemory>
    ensures { IfOk result (λ i. i ≡ function_seen resolution.now.imports key number) }
{
    match key {
        FunctionKey::Import(at) => import(alloc, resolution, at, number),
        FunctionKey::Own { input: _, index: _ } | FunctionKey::Stub(_) => Ok(None),
    }
}

fn global_import(
    alloc: Global,
    resolution: &Resolution,
    key: GlobalKey,
) -> Result<Option<Import>, OutOfMemory>
    ensures { IfOk result (λ i. i ≡ global_seen resolution.now.imports key) }
{
    match key {
        GlobalKey::Import(at) => import(alloc, resolution, at, 0),
        GlobalKey::Own { input: _, index: _ } | GlobalKey::Got(_) | GlobalKey::Datum(_) => Ok(None),
    }
}

/// Adds the imported functions. `types` has the number of the type of each function.
pub(crate) fn add_functions(
    alloc: Global,
    resolution: &Resolution,
    keys: &[FunctionKey],
    types: &[u32],
    imports: &mut Seq<Import>,
) -> Result<(), OutOfMemory>
    ensures { OnOk result (imports.new ≡ imports.old ++ functions_seen resolution.now.imports types.now keys.now) }
{
    for (at, key) in keys.iter().enumerate() {
        if let Some(number) = types.get(at) {
            let import = function_import(alloc, resolution, *key, *number)?;
            add(imports, import)?;
        }
    }
    Ok(())
}

/// Adds the imported globals.
pub(crate) fn add_globals(
    alloc: Global,
    resolution: &Resolution,
    keys: &[GlobalKey],
    imports: &mut Seq<Import>,
) -> Result<(), OutOfMemory>
    ensures { OnOk result (imports.new ≡ imports.old ++ filter_map (global_seen resolution.now.imports) keys.now) }
{
    for key in keys {
        let import = global_import(alloc, resolution, *key)?;
        add(imports, import)?;
    }
    Ok(())
}
