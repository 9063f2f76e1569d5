//! Types of functions, and imports.

use crate::bytes::name;
use std::alloc::Global;
use wasm_types::{FuncType, Import, ImportKind, ValType};
use wl_base::{OutOfMemory, Seq};

/// The type of functions that take these values and give those.
pub fn func_type(
    alloc: Global,
    params: &[ValType],
    results: &[ValType],
) -> Result<FuncType, OutOfMemory> {
    let params = Seq::from_slice(alloc, params)?;
    let results = Seq::from_slice(alloc, results)?;
    Ok(FuncType { params, results })
}

/// An import of the module `env`.
pub fn import(alloc: Global, field: &str, kind: ImportKind) -> Result<Import, OutOfMemory> {
    let module = name(alloc, "env")?;
    let field = name(alloc, field)?;
    Ok(Import {
        module,
        field,
        kind,
    })
}
