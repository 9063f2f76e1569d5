//! The type section (Core 5.5.4).
ghost use Rattle.std.specs.Prelude.{◌≡◌, ◌++◌, IfOk, OnOk};

use std::alloc::Global;
use wasm_types::FuncType;
use wl_base::{OutOfMemory, Seq};

// A function type once more.
fn copy_of(alloc: Global, t: &FuncType) -> Result<FuncType, OutOfMemory>
    ensures { IfOk result (λ copy. copy ≡ t.now) }
{
    let params = Seq::from_slice(alloc, t.params.as_slice())?;
    let results = Seq::from_slice(alloc, t.results.as_slice())?;
    Ok(FuncType { params, results })
}

/// The types once more.
pub(crate) fn copied(alloc: Global, types: &[FuncType]) -> Result<Seq<FuncType>, OutOfMemory>
    ensures { IfOk result (λ copies. copies ≡ types.now) }
{
    let mut copies = Seq::new(alloc);
    for t in types {
        copies.push(copy_of(alloc, t)?)?;
    }
    Ok(copies)
}
