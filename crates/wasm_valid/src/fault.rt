//! Why a module isn't valid.

use wl_base::{InvalidAt, OutOfMemory};

/// A module isn't valid, or memory is refused.
#[derive(Clone, Copy, Debug, PartialEq, Eq)]
pub enum ValidError {
    /// This part of it isn't valid; all that is judged before it is.
    Invalid(InvalidAt),
    /// Memory was refused. It says nothing of the module.
    OutOfMemory,
}

impl From<OutOfMemory> for ValidError {
    ghost use Rattle.std.specs.Prelude.{◌≡◌};
    ghost use Rattle.wasm_valid.specs.declared.fault.ValidError.TheVariants.{OutOfMemory as WantOfMemory};

    ghost from_gives = { λ _ e. e ≡ WantOfMemory };

    fn from(_: OutOfMemory) -> Self {
        ValidError::OutOfMemory
    }
}
