//! Why a section could not be read.
ghost use Rattle.std.specs.Prelude.{◌≡◌};
ghost use Rattle.reloc_section.specs.Fault.{reloc_fault};

use wasm_grammar::{ReadFault, Stop};
use wl_base::Item;

/// What reading comes to first, from left to right, or want of memory.
#[derive(Clone, Copy, Debug, PartialEq, Eq)]
pub enum RelocFault {
    /// The payload is outside the grammar.
    NotReloc,
    /// The type of an entry that isn't read. What follows it isn't read either.
    ForeignType(u8),
    /// Memory was refused. It says nothing of the payload.
    OutOfMemory,
}

impl From<ReadFault> for RelocFault {
    ghost from_gives = { λ e f. f ≡ reloc_fault e };

    fn from(e: ReadFault) -> RelocFault {
        match e {
            ReadFault::Stopped(Stop::Foreign(Item::RelocType(kind))) => {
                RelocFault::ForeignType(kind)
            }
            // No other item is foreign here.
            ReadFault::Stopped(_) => RelocFault::NotReloc,
            ReadFault::OutOfMemory => RelocFault::OutOfMemory,
        }
    }
}
