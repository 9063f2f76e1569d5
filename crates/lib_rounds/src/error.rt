//! Why inputs aren't loaded.

use wl_base::{Fault, OutOfMemory};

/// Why the inputs aren't loaded.
#[derive(Debug, PartialEq, Eq, Drop)]
pub enum RoundError {
    /// The first fault of an object or an index.
    Refused(Fault),
    OutOfMemory,
}

impl From<OutOfMemory> for RoundError {
    ghost use Rattle.std.specs.Prelude.{◌≡◌};
    ghost use Rattle.lib_rounds.specs.declared.error.RoundError.TheVariants.{OutOfMemory as WantOfMemory};

    ghost from_gives = { λ _ e. e ≡ WantOfMemory };

    fn from(_: OutOfMemory) -> Self {
        RoundError::OutOfMemory
    }
}
