//! Why words ask for no run.

use std::alloc::AllocError;
use wl_base::OutOfMemory;

/// Why words ask for no run.
#[derive(Clone, Copy, Debug, PartialEq, Eq)]
pub enum RunWordsError {
    /// clap refuses the words, for another cause than memory.
    Usage,
    /// Want of memory.
    OutOfMemory,
}

impl From<OutOfMemory> for RunWordsError {
    ghost use Rattle.std.specs.Prelude.{◌≡◌};
    ghost use Rattle.run_words.specs.declared.error.RunWordsError.TheVariants.{OutOfMemory as WantOfMemory};

    ghost from_gives = { λ _ e. e ≡ WantOfMemory };

    fn from(_: OutOfMemory) -> Self {
        RunWordsError::OutOfMemory
    }
}

impl From<AllocError> for RunWordsError {
    ghost use Rattle.std.specs.Prelude.{◌≡◌};
    ghost use Rattle.run_words.specs.declared.error.RunWordsError.TheVariants.{OutOfMemory as WantOfMemory};

    ghost from_gives = { λ _ e. e ≡ WantOfMemory };

    fn from(_: AllocError) -> Self {
        RunWordsError::OutOfMemory
    }
}
