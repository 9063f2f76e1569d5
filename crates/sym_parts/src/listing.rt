//! The keys of all functions and cells of a program, live or dead.
ghost use Rattle.std.specs.Prelude.{◌≡◌, ◌<◌, ◌++◌, [], map, filter_map, length, slice_get, IfOk, OnOk};
ghost use Rattle.std.specs.List.{cons_option};
ghost use Rattle.link_program.specs.declared.keys.FunctionKey.TheVariants as functions;
ghost use Rattle.link_program.specs.declared.keys.GlobalKey.TheVariants as globals;
ghost use Rattle.link_keys.specs.Lists.{is_function_import, is_global_import, is_own};
ghost use Rattle.sym_parts.specs.Keys.{imported_functions, imported_globals, own_function, own_global, functions_of, cells_of};

use crate::nulls::null_names;
use link_program::{FunctionKey, GlobalKey, ImportType, Part, Resolution, Tables};
use mark_bits::{Chunk, kinds as chunk_kinds};
use std::alloc::Global;
use wl_base::OutOfMemory;

/// Whether an import is of a function.
fn is_function_import(resolution: &Resolution, number: u32) -> bool
    requires { number < length resolution.now.imports }
    ensures { result ≡ is_function_import (slice_get resolution.now.imports number) }
{
    match resolution.import_type(number) {
        ImportType::Function(_) => true,
        ImportType::GlobalVar(_, _) | ImportType::Untyped => false,
    }
}

/// Whether an import is of a global.
fn is_global_import(resolution: &Resolution, number: u32) -> bool
    requires { number < length resolution.now.imports }
    ensures { result ≡ is_global_import (slice_get resolution.now.imports number) }
{
    match resolution.import_type(number) {
        ImportType::GlobalVar(_, _) => true,
        ImportType::Function(_) | ImportType::Untyped => false,
    }
}

/// Puts the imported functions behind the keys.
fn push_function_imports(
    keys: &mut Vec<FunctionKey>,
    resolution: &Resolution,
) -> Result<(), OutOfMemory>
    ensures { OnOk result (keys.new.items ≡ keys.old.items ++ map functions.Import (imported_functions resolution.now.imports)) }
{
    for number in 0..resolution.imports() {
        if is_function_import(resolution, number) {
            keys.push(FunctionKey::Import(number))?;
        }
    }
    Ok(())
}

/// Puts the imported globals behind the keys.
fn push_global_imports(
    keys: &mut Vec<GlobalKey>,
    resolution: &Resolution,
) -> Result<(), OutOfMemory>
    ensures { OnOk result (keys.new.items ≡ keys.old.items ++ map globals.Import (imported_globals resolution.now.imports)) }
{
    for number in 0..resolution.imports() {
        if is_global_import(resolution, number) {
            keys.push(GlobalKey::Import(number))?;
        }
    }
    Ok(())
}

/// Whether a chunk is of a kind, and of the linker or of an object.
fn is_own(kind: u8, linkers: bool, chunk: Chunk) -> bool
    ensures { result ≡ is_own kind linkers chunk }
{
    let made = if linkers {
        chunk.input == 0
    } else {
        chunk.input != 0
    };
    chunk.kind == kind && made
}

/// Puts a function behind the keys, if the part is one of the linker's or of an object's.
fn push_own_function(
    keys: &mut Vec<FunctionKey>,
    linkers: bool,
    part: Part,
) -> Result<(), OutOfMemory>
    ensures { OnOk result (keys.new.items ≡ keys.old.items ++ cons_option (own_function linkers part) []) }
{
    if is_own(chunk_kinds::FUNCTION, linkers, part.chunk) {
        keys.push(FunctionKey::Own {
            input: part.chunk.input,
            index: part.chunk.index,
        })?;
    }
    Ok(())
}

/// Puts a global behind the keys, if the part is one of the linker's or of an object's.
fn push_own_global(keys: &mut Vec<GlobalKey>, linkers: bool, part: Part) -> Result<(), OutOfMemory>
    ensures { OnOk result (keys.new.items ≡ keys.old.items ++ cons_option (own_global linkers part) []) }
{
    if is_own(chunk_kinds::GLOBAL, linkers, part.chunk) {
        keys.push(GlobalKey::Own {
            input: part.chunk.input,
            index: part.chunk.index,
        })?;
    }
    Ok(())
}

/// Puts the functions of the linker or of objects behind the keys.
fn push_own_functions(
    keys: &mut Vec<FunctionKey>,
    linkers: bool,
    parts: &[Part],
) -> Result<(), OutOfMemory>
    ensures { OnOk result (keys.new.items ≡ keys.old.items ++ filter_map (own_function linkers) parts.now) }
{
    for part in parts {
        push_own_function(keys, linkers, *part)?;
    }
    Ok(())
}

/// Puts the globals of the linker or of objects behind the keys.
fn push_own_globals(
    keys: &mut Vec<GlobalKey>,
    linkers: bool,
    parts: &[Part],
) -> Result<(), OutOfMemory>
    ensures { OnOk result (keys.new.items ≡ keys.old.items ++ filter_map (own_global linkers) parts.now) }
{
    for part in parts {
        push_own_global(keys, linkers, *part)?;
    }
    Ok(())
}

/// Puts the stubs of these names behind the keys.
fn push_stubs(keys: &mut Vec<FunctionKey>, names: &[u32]) -> Result<(), OutOfMemory>
    ensures { OnOk result (keys.new.items ≡ keys.old.items ++ map functions.Stub names.now) }
{
    for name in names {
        keys.push(FunctionKey::Stub(*name))?;
    }
    Ok(())
}

/// The keys of all functions.
pub(crate) fn list_functions(
    alloc: Global,
    resolution: &Resolution,
    tables: &Tables,
) -> Result<Vec<FunctionKey>, OutOfMemory>
    ensures { IfOk result (λ keys. keys.items ≡ functions_of resolution.now.imports tables.now) }
{
    let nulls = null_names(alloc, tables)?;
    let parts = tables.parts.as_slice();
    let mut keys = Vec::new(alloc);
    push_function_imports(&mut keys, resolution)?;
    push_own_functions(&mut keys, true, parts)?;
    push_stubs(&mut keys, nulls.as_slice())?;
    push_own_functions(&mut keys, false, parts)?;
    Ok(keys)
}

/// The keys of all cells.
pub(crate) fn list_cells(
    alloc: Global,
    resolution: &Resolution,
    tables: &Tables,
) -> Result<Vec<GlobalKey>, OutOfMemory>
    ensures { IfOk result (λ keys. keys.items ≡ cells_of resolution.now.imports tables.now) }
{
    let parts = tables.parts.as_slice();
    let mut keys = Vec::new(alloc);
    push_global_imports(&mut keys, resolution)?;
    push_own_globals(&mut keys, true, parts)?;
    push_own_globals(&mut keys, false, parts)?;
    Ok(keys)
}
