//! The module and the script are loaded, in this order.
ghost use Rattle.std.specs.Prelude.{IfOk, IfErr};
ghost use Rattle.wl_outside.specs.Shelf.{Same, Grows};
ghost use Rattle.wasm_exec.specs.Loading.{AreHeld, Cause};

use run_words::RunWords;
use std::alloc::Global;
use wl_base::Seq;
use wl_outside::{LoadFault, Shelf};

/// The bytes of a module and of a script.
#[derive(Drop)]
pub struct Loaded {
    pub bytes: Seq<u8>,
    pub lines: Seq<u8>,
}

/// Why they aren't loaded.
#[derive(Clone, Copy, Debug, PartialEq, Eq)]
pub enum ReadError {
    /// The load of the module (0) or of the script (1) failed.
    Failed(u32),
    /// Want of memory.
    OutOfMemory,
}

/// Loads the module, and then the script.
///
/// # Errors
/// `Failed(k)` where the load of word k failed; want of memory.
#[tactic(auto, using(crate::proofs::Loads::held_before, crate::proofs::Loads::still_same, crate::proofs::Loads::grew_both, crate::proofs::Loads::failed_in_both))]
pub fn load_both<F: Shelf>(alloc: Global, w: &RunWords, shelf: &mut F) -> Result<Loaded, ReadError>
    ensures held { Same (F.shown shelf.old) (F.shown shelf.new) }
    ensures counts { Grows (F.shown shelf.old) (F.shown shelf.new) }
    ensures files { IfOk result (AreHeld (F.shown shelf.old) w.now) }
    ensures cause { IfErr result (λ e. Cause e (F.shown shelf.old) (F.shown shelf.new) w.now) }
{
    let bytes = match shelf.load(alloc, w.module.as_str()) {
        Ok(bytes) => bytes,
        Err(LoadFault::Failed) => return Err(ReadError::Failed(0)),
        Err(LoadFault::OutOfMemory) => return Err(ReadError::OutOfMemory),
    };
    match shelf.load(alloc, w.script.as_str()) {
        Ok(lines) => Ok(Loaded { bytes, lines }),
        Err(LoadFault::Failed) => Err(ReadError::Failed(1)),
        Err(LoadFault::OutOfMemory) => Err(ReadError::OutOfMemory),
    }
}
