//! Which exports are wrapped, and by what.
ghost use Rattle.std.specs.Prelude.{◌≡◌, IfOk, filter_map};
ghost use Rattle.export_wrappers.specs.Wrapped.{ctors_name, dtors_name, is_function_named, function_named, is_kept, is_function_kind, imported, defined_kind, typed_wrapper, wrapper_in};

use crate::wrapper::{Asked, Wrapper};
use std::alloc::Global;
use wasm_module::{Export, FuncType, Import, ImportKind, export_kinds};
use wl_base::{OutOfMemory, Seq};

/// Whether a function is exported, by this name.
fn is_function_named(name: &[u8], e: &Export) -> bool
    ensures { result ≡ is_function_named name.now e.now }
{
    e.kind == export_kinds::FUNCTION && e.name.as_slice() == name
}

/// Whether the constructors' function is exported.
fn is_ctors(e: &Export) -> bool
    ensures { result ≡ is_function_named ctors_name e.now }
{
    is_function_named(b"__wasm_call_ctors".as_slice(), e)
}

/// Whether the destructors' function is exported.
fn is_dtors(e: &Export) -> bool
    ensures { result ≡ is_function_named dtors_name e.now }
{
    is_function_named(b"__wasm_call_dtors".as_slice(), e)
}

/// The constructors' function.
pub fn ctors_of(exports: &[Export]) -> Option<u32>
    ensures { result ≡ function_named ctors_name exports.now }
{
    match exports.iter().find(|e| is_ctors(e)) {
        None => None,
        Some(e) => Some(e.index),
    }
}

/// The destructors' function.
pub fn dtors_of(exports: &[Export]) -> Option<u32>
    ensures { result ≡ function_named dtors_name exports.now }
{
    match exports.iter().find(|e| is_dtors(e)) {
        None => None,
        Some(e) => Some(e.index),
    }
}

/// Whether an export stays.
pub fn is_kept(asked: Asked, e: &Export) -> bool
    ensures { result ≡ is_kept asked e.now }
{
    (!is_ctors(e) || asked.ctors) && (!is_dtors(e) || asked.dtors)
}

/// Whether a function is imported.
fn is_function_kind(kind: &ImportKind) -> bool
    ensures { result ≡ is_function_kind kind.now }
{
    matches!(kind, ImportKind::Function(_))
}

/// How many functions are imported.
pub fn imported(imports: &[Import]) -> usize
    ensures { result ≡ imported imports.now }
{
    imports
        .iter()
        .filter(|import| is_function_kind(&import.kind))
        .count()
}

/// The type of a function that the module defines, by its number among all.
fn defined_kind(imports: usize, functions: &[u32], index: u32) -> Option<u32>
    ensures { result ≡ defined_kind imports functions.now index }
{
    let index = index as usize;
    if index < imports {
        None
    } else {
        match functions.get(index - imports) {
            None => None,
            Some(kind) => Some(*kind),
        }
    }
}

/// The wrapper of a function that has a type.
fn typed_wrapper(types: &[FuncType], function: u32, kind: u32) -> Option<Wrapper>
    ensures { result ≡ typed_wrapper types.now function kind }
{
    match types.get(kind as usize) {
        None => None,
        Some(t) => Some(Wrapper {
            kind,
            parameters: t.params.len(),
            function,
        }),
    }
}

/// The wrapper of an exported function that the module defines and that is no helper.
pub fn wrapper_in(
    types: &[FuncType],
    imports: usize,
    functions: &[u32],
    e: &Export,
) -> Option<Wrapper>
    ensures { result ≡ wrapper_in types.now imports functions.now e.now }
{
    if e.kind == export_kinds::FUNCTION && !(is_ctors(e) || is_dtors(e)) {
        match defined_kind(imports, functions, e.index) {
            None => None,
            Some(kind) => typed_wrapper(types, e.index, kind),
        }
    } else {
        None
    }
}

/// The wrappers, in the order of the exports.
pub fn wrappers(
    alloc: Global,
    types: &[FuncType],
    imports: usize,
    functions: &[u32],
    exports: &[Export],
) -> Result<Seq<Wrapper>, OutOfMemory>
    ensures { IfOk result (λ all. all ≡ filter_map (wrapper_in types.now imports functions.now) exports.now) }
{
    let mut all = Seq::new(alloc);
    for e in exports {
        if let Some(wrapper) = wrapper_in(types, imports, functions, e) {
            all.push(wrapper)?;
        }
    }
    Ok(all)
}
