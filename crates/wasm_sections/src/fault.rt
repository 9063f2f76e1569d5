//! Why bytes are no run of sections.
ghost use Rattle.std.specs.Prelude.{◌≡◌};
ghost use Rattle.wasm_sections.specs.declared.fault.FrameFault.TheVariants as faults;

use thiserror::Error;
use wl_base::OutOfMemory;

/// Why a file is no frame of sections: its header, or the first section at fault with the place of
/// its id, from the file's first byte.
#[derive(Clone, Copy, Debug, PartialEq, Eq, Error)]
pub enum FrameFault {
    /// The first 8 bytes aren't the magic and the version (Core 5.5.16).
    #[error("not a module of version 1")]
    BadHeader,
    /// The size is no u32, or runs past the end of the file (Core 5.5.2).
    #[error("a bad size of the section at {0}")]
    BadSize(u64),
    /// The id is above 13 (Core 5.5.2).
    #[error("a bad id of the section at {0}")]
    BadId(u64),
    /// The section comes twice, or too late (Core 5.5.16).
    #[error("the section at {0} is out of order")]
    BadOrder(u64),
    /// Memory was refused. It says nothing of the file.
    #[error("no memory")]
    OutOfMemory,
}

impl From<OutOfMemory> for FrameFault {
    ghost from_gives = { λ _ e. e ≡ faults.OutOfMemory };

    fn from(_e: OutOfMemory) -> FrameFault {
        FrameFault::OutOfMemory
    }
}
