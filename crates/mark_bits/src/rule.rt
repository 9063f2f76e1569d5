//! The rule of the table that holds the bits, and what each step tells its seat.
ghost use Rattle.std.specs.Prelude.{ℕ};

use crate::party::Party;
use atomic_table::{Join, Play, Split, TableRule};
use std::marker::{Brand, PhantomData};

/// What the table is told when it is made.
#[derive(Drop)]
pub struct Terms {
    pub width: u32,
    pub chunks: u32,
}

/// The rule: the table is the end of some list of events.
pub struct Bits;

impl TableRule<u64, Party, Terms> for Bits {
    ghost use Rattle.mark_bits.specs.Marks.{starter};
    ghost use Rattle.mark_bits.specs.Rule.{MarkRule};

    ghost holds = { λ k s. MarkRule k.width k.chunks s };

    ghost first = { λ k. starter k.width };
}

/// A number that a call picks, for the proof alone.
pub trait Number {
    ghost number: { ℕ };
}

impl Number for Brand {
    ghost number = { 0 };
}

/// A mark of the chunk C.
pub struct Mark<C: Number> {
    of: PhantomData<C>,
}

impl<C: Number> Play<u64, Party> for Mark<C> {
    ghost use Rattle.mark_bits.specs.Rule.{Marked};

    ghost then = { Marked C.number };
}

/// A load that changes nothing.
pub struct Look;

impl Play<u64, Party> for Look {
    ghost use Rattle.mark_bits.specs.Rule.{Looked};

    ghost then = { Looked };
}

/// A split that gives the new seat the width W.
pub struct Halve<W: Number> {
    of: PhantomData<W>,
}

impl<W: Number> Split<Party> for Halve<W> {
    ghost use Rattle.mark_bits.specs.Marks.{kept_part, starter};

    ghost left = { kept_part W.number };

    ghost right = { λ _. starter W.number };
}

/// A join that leaves the other seat spent.
pub struct Both;

impl Join<Party> for Both {
    ghost use Rattle.mark_bits.specs.Marks.{joined, spent};

    ghost both = { joined };

    ghost spent = { spent };
}
