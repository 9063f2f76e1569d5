//! How many workers there are.
ghost use Rattle.std.specs.Prelude.{◌≡◌, ◌<◌, ◌≤◌, ◌⊎◌, IfSome, IfNone};

use std::marker::Model;

/// A number of workers, from 1 to 64. Contracts see the number.
#[derive(Clone, Copy, Debug, PartialEq, Eq)]
pub struct Workers {
    count: u32,
}

impl Model for Workers {
    ghost use Rattle.std.specs.Prelude.{ℕ, ◌≤◌};

    ghost Value = { ℕ };

    ghost view = { λ w. w.count };

    ghost inverse = { λ n. record { count = n } };

    ghost invariant = { λ w. (1 ≤ w.count) × (w.count ≤ 64) };
}

impl Workers {
    /// So many workers; `None` exactly outside 1 to 64.
    pub fn new(count: u32) -> Option<Workers>
        ensures some { IfSome result (λ w. (w ≡ count) × (1 ≤ count) × (count ≤ 64)) }
        ensures none { IfNone result ((count < 1) ⊎ (64 < count)) }
    {
        if 1 <= count && count <= 64 {
            Some(Workers { count })
        } else {
            None
        }
    }

    /// How many workers there are, from 1 to 64.
    pub fn count(self) -> u32
        ensures value { result ≡ self }
        ensures range { (1 ≤ result) × (result ≤ 64) }
    {
        self.count
    }
}
