//! What the numbers of an object's symbols and types name.
ghost use Rattle.std.specs.Prelude.{◌≡◌, ◌++◌, [], filter_map, IfOk, OnOk};
ghost use Rattle.std.specs.List.{cons_option};
ghost use Rattle.object_file.specs.Spaces.{no_type, written_type, global_types, imported_global};
ghost use Rattle.object_file.specs.object_columns.Seen.{func_type_seen};
ghost use Rattle.valid_objects.specs.Merging.{function_indexes, AreNames};
ghost use Rattle.wasm_valid.specs.Spaces.{a_function};

use object_file::{FuncTypeRef, Object};
use std::alloc::Global;
use wasm_types::{FuncType, GlobalType, ImportKind};
use wl_base::{OutOfMemory, Seq};

/// What the indexes of an object name, imports first.
#[derive(Drop)]
pub struct Names {
    /// Of each function the index of its type.
    pub functions: Seq<u32>,
    /// The types of globals.
    pub globals: Seq<GlobalType>,
}

/// Puts the index of a function's type at the end, where an import is one.
fn put_function(found: &mut Seq<u32>, kind: ImportKind) -> Result<(), OutOfMemory>
    ensures { OnOk result (found.new ≡ found.old ++ cons_option (a_function kind) []) }
{
    match kind {
        ImportKind::Function(index) => found.push(index),
        ImportKind::Table(_) | ImportKind::Memory(_) | ImportKind::GlobalVar(_) => Ok(()),
    }
}

/// Puts the type of a global at the end, where an import is one.
fn put_global(found: &mut Seq<GlobalType>, kind: ImportKind) -> Result<(), OutOfMemory>
    ensures { OnOk result (found.new ≡ found.old ++ cons_option (imported_global kind) []) }
{
    match kind {
        ImportKind::GlobalVar(global) => found.push(global),
        ImportKind::Function(_) | ImportKind::Table(_) | ImportKind::Memory(_) => Ok(()),
    }
}

/// The type indexes of the functions that are imported.
fn imported_functions(alloc: Global, o: &Object) -> Result<Seq<u32>, OutOfMemory>
    ensures { IfOk result (λ found. found ≡ filter_map (λ i. a_function i.kind) o.now.imports) }
{
    let mut found = Seq::new(alloc);
    for at in 0..o.imports.len() {
        let Some(import) = o.imports.get(at) else {
            unreachable!()
        };
        put_function(&mut found, import.kind)?;
    }
    Ok(found)
}

/// The types of the globals that are imported.
fn imported_globals(alloc: Global, o: &Object) -> Result<Seq<GlobalType>, OutOfMemory>
    ensures { IfOk result (λ found. found ≡ filter_map (λ i. imported_global i.kind) o.now.imports) }
{
    let mut found = Seq::new(alloc);
    for at in 0..o.imports.len() {
        let Some(import) = o.imports.get(at) else {
            unreachable!()
        };
        put_global(&mut found, import.kind)?;
    }
    Ok(found)
}

/// The type indexes of all functions.
fn functions(alloc: Global, o: &Object) -> Result<Seq<u32>, OutOfMemory>
    ensures { IfOk result (λ found. found ≡ function_indexes o.now) }
{
    let mut found = imported_functions(alloc, o)?;
    for at in 0..o.functions.len() {
        let Some(function) = o.functions.get(at) else {
            unreachable!()
        };
        found.push(function.type_index)?;
    }
    Ok(found)
}

/// The types of all globals.
fn globals(alloc: Global, o: &Object) -> Result<Seq<GlobalType>, OutOfMemory>
    ensures { IfOk result (λ found. found ≡ global_types o.now) }
{
    let mut found = imported_globals(alloc, o)?;
    for global in o.globals.as_slice() {
        found.push(global.kind)?;
    }
    Ok(found)
}

/// What the indexes of an object name.
pub fn names_of(alloc: Global, o: &Object) -> Result<Names, OutOfMemory>
    ensures { IfOk result (λ names. AreNames names o.now) }
{
    Ok(Names {
        functions: functions(alloc, o)?,
        globals: globals(alloc, o)?,
    })
}

/// The same type once more.
pub fn copied(alloc: Global, kind: FuncTypeRef<'_>) -> Result<FuncType, OutOfMemory>
    ensures { IfOk result (λ copy. copy ≡ func_type_seen kind.entry) }
{
    Ok(FuncType {
        params: Seq::from_slice(alloc, kind.params)?,
        results: Seq::from_slice(alloc, kind.results)?,
    })
}

/// The type () to ().
fn no_type(alloc: Global) -> FuncType
    ensures { result ≡ no_type }
{
    FuncType {
        params: Seq::new(alloc),
        results: Seq::new(alloc),
    }
}

/// The function type of an index; the type () to () where there is none, which no object has.
pub fn written_type(alloc: Global, o: &Object, index: u32) -> Result<FuncType, OutOfMemory>
    ensures { IfOk result (λ kind. kind ≡ written_type o.now index) }
{
    match o.types.get(index as usize) {
        Some(kind) => copied(alloc, kind),
        None => Ok(no_type(alloc)),
    }
}
