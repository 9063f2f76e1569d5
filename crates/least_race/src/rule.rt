//! The rule of a race's table, and what each of its steps tells.
use crate::party::Party;
use atomic_table::{Join, Play, Split, TableRule};
use std::marker::{Brand, PhantomData};
use std::snapshot::Snapshot;

/// What the table is told when it is made.
#[derive(Drop)]
pub struct Terms {
    pub width: u32,
    pub jobs: u32,
    pub base: Snapshot<Vec<u64>>,
}

/// The rule: the table is what some list of events has made of the race.
pub struct Least;

impl TableRule<u64, Party, Terms> for Least {
    ghost use Rattle.least_race.specs.Race.{starter};
    ghost use Rattle.least_race.specs.Rule.{LeastRule};

    ghost holds = { λ k s. LeastRule k.width k.jobs k.base.value.items s };

    ghost first = { λ k. starter k.width k.jobs k.base.value.items };
}

/// A step that draws a number.
pub struct Claim;

impl Play<u64, Party> for Claim {
    ghost use Rattle.least_race.specs.Rule.{Claims};

    ghost then = { Claims };
}

/// A step that offers a rank.
pub struct Propose;

impl Play<u64, Party> for Propose {
    ghost use Rattle.least_race.specs.Rule.{Proposes};

    ghost then = { Proposes };
}

/// How wide a new seat is. Each call picks it.
pub trait Width {
    ghost use Rattle.std.specs.Prelude.{ℕ};

    ghost part: { ℕ };
}

impl Width for Brand {
    ghost part = { 0 };
}

/// The step that splits a seat.
pub struct Halve<W: Width> {
    of: PhantomData<W>,
}

impl<W: Width> Split<Party> for Halve<W> {
    ghost use Rattle.least_race.specs.Race.{kept_part, given_part};

    ghost left = { kept_part W.part };

    ghost right = { given_part W.part };
}

/// The step that joins two seats.
pub struct Both;

impl Join<Party> for Both {
    ghost use Rattle.least_race.specs.Race.{joined, spent};

    ghost both = { joined };

    ghost spent = { spent };
}
