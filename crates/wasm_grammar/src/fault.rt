//! Why a form could not be read.
ghost use Rattle.std.specs.Prelude.{◌≡◌};
ghost use Rattle.wasm_grammar.specs.declared.fault.ReadFault.TheVariants as faults;

use wl_base::{Item, OutOfMemory};

/// What reading comes to first, from left to right, where it finds no value.
#[derive(Clone, Copy, Debug, PartialEq, Eq)]
pub enum Stop {
    /// The bytes are outside the grammar. The place is counted as the end is that the reader was
    /// given.
    Broken(usize),
    /// An item of the format that isn't linked. What follows it isn't read.
    Foreign(Item),
}

/// The same, or want of memory.
#[derive(Clone, Copy, Debug, PartialEq, Eq)]
pub enum ReadFault {
    /// What stands in the bytes.
    Stopped(Stop),
    /// Memory was refused. It says nothing of the bytes.
    OutOfMemory,
}

impl From<Stop> for ReadFault {
    ghost from_gives = { λ e f. f ≡ faults.Stopped e };

    fn from(e: Stop) -> ReadFault {
        ReadFault::Stopped(e)
    }
}

impl From<OutOfMemory> for ReadFault {
    ghost from_gives = { λ _ f. f ≡ faults.OutOfMemory };

    fn from(_e: OutOfMemory) -> ReadFault {
        ReadFault::OutOfMemory
    }
}
