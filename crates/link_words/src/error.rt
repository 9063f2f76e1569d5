//! Why words have no plan.

use wl_base::{OutOfMemory, Usage};

/// Why the words have no plan, or want of memory.
#[derive(Clone, Copy, Debug, PartialEq, Eq)]
pub enum WordError {
    /// The first fault of the words.
    Usage(Usage),
    /// Memory was refused.
    OutOfMemory,
}

impl From<OutOfMemory> for WordError {
    ghost use Rattle.std.specs.Prelude.{◌≡◌};
    ghost use Rattle.link_words.specs.declared.error.WordError.TheVariants.{OutOfMemory as WantOfMemory};

    ghost from_gives = { λ _ e. e ≡ WantOfMemory };

    fn from(_: OutOfMemory) -> Self {
        WordError::OutOfMemory
    }
}
