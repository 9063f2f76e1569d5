//! Why there is no answer.

use std::alloc::AllocError;
use wl_base::{OutOfMemory, Text};

/// Why words are not translated.
#[derive(Drop)]
pub enum Stop {
    /// The file of this name is there and can't be read.
    Unreadable(Text),
    /// The file of this name was read, and a word or a name that it has isn't UTF-8.
    NotText(Text),
    /// Memory was refused.
    OutOfMemory,
}

impl From<OutOfMemory> for Stop {
    ghost use Rattle.std.specs.Prelude.{◌≡◌};
    ghost use Rattle.driver_words.specs.declared.stop.Stop.TheVariants.{OutOfMemory as WantOfMemory};

    ghost from_gives = { λ _ e. e ≡ WantOfMemory };

    fn from(_: OutOfMemory) -> Self {
        Stop::OutOfMemory
    }
}

impl From<AllocError> for Stop {
    ghost use Rattle.std.specs.Prelude.{◌≡◌};
    ghost use Rattle.driver_words.specs.declared.stop.Stop.TheVariants.{OutOfMemory as WantOfMemory};

    ghost from_gives = { λ _ e. e ≡ WantOfMemory };

    fn from(_: AllocError) -> Self {
        Stop::OutOfMemory
    }
}
