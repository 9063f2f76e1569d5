//! The body of `__wasm_call_ctors`.
ghost use Rattle.std.specs.Prelude.{◌≡◌, IfOk};
ghost use Rattle.ctor_call.specs.Body.{ctor_body};

use leb_codec::put_u32_5;
use std::alloc::Global;
use wl_base::{OutOfMemory, Seq};

/// The body that calls these functions in their order: it has no locals, one call of each, and the end (Core 5.4.1, 5.5.13).
///
/// Each index takes five bytes, so a body has 6 bytes a call and 2 more. The body's own size isn't among them.
#[tactic(auto, unfolding(crate::specs::Body::ctor_body))]
pub fn body(alloc: Global, functions: &[u32]) -> Result<Seq<u8>, OutOfMemory>
    ensures { IfOk result (λ bytes. bytes ≡ ctor_body functions.now) }
{
    let mut bytes = Vec::with_capacity(alloc, 2 + 6 * functions.len())?;
    bytes.push(0)?;
    for function in functions {
        bytes.push(0x10)?;
        bytes.extend_from_slice(put_u32_5(*function).as_slice())?;
    }
    bytes.push(0x0B)?;
    Ok(Seq::from_vec(bytes))
}
