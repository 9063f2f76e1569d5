//! Why a section could not be read.
ghost use Rattle.std.specs.Prelude.{◌≡◌};
ghost use Rattle.linking_section.specs.Fault.{linking_fault};

use wasm_grammar::{ReadFault, Stop};
use wl_base::Item;

/// What reading comes to first, from left to right, or want of memory.
#[derive(Clone, Copy, Debug, PartialEq, Eq)]
pub enum LinkingFault {
    /// The payload is outside the grammar.
    NotLinking,
    /// An item that isn't linked. What follows it isn't read.
    Foreign(Item),
    /// Memory was refused. It says nothing of the payload.
    OutOfMemory,
}

impl From<ReadFault> for LinkingFault {
    ghost from_gives = { λ e f. f ≡ linking_fault e };

    fn from(e: ReadFault) -> LinkingFault {
        match e {
            ReadFault::Stopped(Stop::Broken(_)) => LinkingFault::NotLinking,
            ReadFault::Stopped(Stop::Foreign(item)) => LinkingFault::Foreign(item),
            ReadFault::OutOfMemory => LinkingFault::OutOfMemory,
        }
    }
}
