//! Why a library could not be read.
ghost use Rattle.std.specs.Prelude.{◌≡◌};
ghost use Rattle.lib_index.specs.declared.fault.LibError.TheVariants as errors;

use wl_base::{LibFault, OutOfMemory};

/// What stands in the file, or want of memory.
#[derive(Clone, Copy, Debug, PartialEq, Eq)]
pub enum LibError {
    /// The file is no library that can be read, for the first of the causes that applies.
    Refused(LibFault),
    /// Memory was refused. It says nothing of the file.
    OutOfMemory,
}

impl From<LibFault> for LibError {
    ghost from_gives = { λ fault e. e ≡ errors.Refused fault };

    fn from(fault: LibFault) -> LibError {
        LibError::Refused(fault)
    }
}

impl From<OutOfMemory> for LibError {
    ghost from_gives = { λ _ e. e ≡ errors.OutOfMemory };

    fn from(_: OutOfMemory) -> LibError {
        LibError::OutOfMemory
    }
}
