//! Copies of types.
ghost use Rattle.std.specs.Prelude.{◌≡◌, IfOk};
ghost use Rattle.link_program.specs.object_file.Spaces.{no_type};

use std::alloc::Global;
use wasm_types::FuncType;
use wl_base::{OutOfMemory, Seq};

/// The same type.
pub(crate) fn type_of(alloc: Global, kind: &FuncType) -> Result<FuncType, OutOfMemory>
    ensures { IfOk result (λ copy. copy ≡ kind.now) }
{
    let params = Seq::from_slice(alloc, kind.params.as_slice())?;
    let results = Seq::from_slice(alloc, kind.results.as_slice())?;
    Ok(FuncType { params, results })
}

/// The type () to ().
pub(crate) fn empty_type(alloc: Global) -> FuncType
    ensures { result ≡ no_type }
{
    FuncType {
        params: Seq::new(alloc),
        results: Seq::new(alloc),
    }
}
