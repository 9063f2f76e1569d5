//! Why a layout is refused.

use crate::{OutOfMemory, What};

/// The first number that passes its limit, or want of memory.
#[derive(Clone, Copy, Debug, PartialEq, Eq)]
pub enum LayoutError {
    Overflow { what: What, needed: i64 },
    OutOfMemory,
}

impl From<OutOfMemory> for LayoutError {
    ghost use Rattle.std.specs.Prelude.{◌≡◌};
    ghost use Rattle.wl_base.specs.declared.layout_error.LayoutError.TheVariants.{OutOfMemory as WantOfMemory};

    ghost from_gives = { λ _ e. e ≡ WantOfMemory };

    fn from(_: OutOfMemory) -> Self {
        LayoutError::OutOfMemory
    }
}
