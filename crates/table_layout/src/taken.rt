//! The functions that have slots.
ghost use Rattle.std.specs.Prelude.{◌≡◌};
ghost use Rattle.table_layout.specs.Slots.{slot_in};

use std::marker::Model;
use wl_base::Seq;

/// The functions that have a slot, by rising number, and the first slot.
#[derive(Drop)]
pub struct Slots {
    pub(crate) first: u32,
    pub(crate) takers: Seq<u32>,
}

impl Model for Slots {
    ghost use Rattle.std.specs.Prelude.{◌+◌, ◌<◌, ◌^◌, length};
    ghost use Rattle.table_layout.specs.Slots.{Takers, Rises};

    ghost Value = { Takers };

    ghost view = { λ s. record { first = s.first; functions = s.takers } };

    ghost invariant = { λ s. Rises s.takers × (s.first + length s.takers < 2 ^ 32) };
}

impl Slots {
    /// The slot of a function; `None` exactly where it took none.
    pub fn of(&self, function: u32) -> Option<u32>
        ensures { result ≡ slot_in self.now.first self.now.functions function }
    {
        match self.functions().binary_search(&function) {
            Ok(place) => Some(self.first + place as u32),
            Err(_) => None,
        }
    }

    /// The functions that took a slot, in the order of their slots.
    pub fn functions(&self) -> &[u32]
        ensures { result.now ≡ self.now.functions }
    {
        self.takers.as_slice()
    }
}
