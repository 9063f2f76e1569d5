//! Why one type alone could not be read.
ghost use Rattle.std.specs.Prelude.{◌≡◌};
ghost use Rattle.wasm_types.specs.Fault.{plain_fault, form_fault};

use wasm_grammar::{ReadFault, Stop};
use wl_base::Item;

/// What reading comes to first, from left to right.
#[derive(Clone, Copy, Debug, PartialEq, Eq)]
pub enum PlainFault {
    /// The bytes are outside the grammar.
    Broken,
    /// An item that isn't linked. What follows it isn't read.
    Foreign(Item),
}

/// The same, or want of memory.
#[derive(Clone, Copy, Debug, PartialEq, Eq)]
pub enum FormFault {
    /// The bytes are outside the grammar.
    Broken,
    /// An item that isn't linked. What follows it isn't read.
    Foreign(Item),
    /// Memory was refused. It says nothing of the bytes.
    OutOfMemory,
}

impl From<Stop> for PlainFault {
    ghost from_gives = { λ e f. f ≡ plain_fault e };

    fn from(e: Stop) -> PlainFault {
        match e {
            Stop::Broken(_) => PlainFault::Broken,
            Stop::Foreign(item) => PlainFault::Foreign(item),
        }
    }
}

impl From<ReadFault> for FormFault {
    ghost from_gives = { λ e f. f ≡ form_fault e };

    fn from(e: ReadFault) -> FormFault {
        match e {
            ReadFault::Stopped(Stop::Broken(_)) => FormFault::Broken,
            ReadFault::Stopped(Stop::Foreign(item)) => FormFault::Foreign(item),
            ReadFault::OutOfMemory => FormFault::OutOfMemory,
        }
    }
}
