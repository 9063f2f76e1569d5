//! Why debug sections aren't joined.

use wl_base::{Fault, OutOfMemory};

/// Why debug sections aren't joined.
#[derive(Debug, PartialEq, Eq, Drop)]
pub enum DebugError {
    /// The first fault: `BadDebug` or `DebugTooLong`.
    Refused(Fault),
    /// Memory was refused. It says nothing of the sections.
    OutOfMemory,
}

impl From<OutOfMemory> for DebugError {
    ghost use Rattle.std.specs.Prelude.{◌≡◌};
    ghost use Rattle.debug_out.specs.declared.error.DebugError.TheVariants.{OutOfMemory as WantOfMemory};

    ghost from_gives = { λ _ e. e ≡ WantOfMemory };

    fn from(_: OutOfMemory) -> Self {
        DebugError::OutOfMemory
    }
}
