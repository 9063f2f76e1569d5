//! A share of a race.
ghost use Rattle.std.specs.Prelude.{◌≡◌, ◌≤◌, true, false};
ghost use Rattle.least_race.specs.Jobs.{offers_from};
ghost use Rattle.least_race.specs.Seats.{IsSeatOf};

use crate::offers::propose_all;
use least_race::{Jobs, LeastRace, RaceSeat};
use std::marker::Model;
use wl_fan::Share;
use wl_outside::{Gate, Phase};

/// A part of a race, which one worker or several work. Its seat has its width. A done share
/// proposed exactly the offers of the jobs that it claimed, and drew past the jobs once a worker.
pub struct RaceShare<'a, J: Jobs + Sync, G: Gate> {
    race: &'a LeastRace<J>,
    gate: &'a G,
    phase: Phase,
    seat: RaceSeat,
    first: u32,
    width: u32,
    done: bool,
}

impl<'a, J: Jobs + Sync, G: Gate> Model for RaceShare<'a, J, G> {
    ghost use Rattle.race_share.specs.Shares.{ShareView, IsShare};

    ghost Value = { ShareView };

    ghost view = { λ s. record { race = s.race.now; first = s.first; width = s.width; done = s.done } };

    ghost invariant = { λ s. IsShare s.race.now s.seat s.first s.width s.done };
}

impl<'a, J: Jobs + Sync, G: Gate> RaceShare<'a, J, G> {
    ghost use Rattle.std.specs.Prelude.{◌≡◌, ◌≤◌, true, false};
    ghost use Rattle.least_race.specs.Jobs.{offers_from};
    ghost use Rattle.least_race.specs.Seats.{IsSeatOf};
    ghost use Rattle.race_share.specs.Shares.{IsFresh};

    /// The whole race, for the workers from 0 on.
    pub fn new(
        race: &'a LeastRace<J>,
        gate: &'a G,
        phase: Phase,
        seat: RaceSeat,
        width: u32,
    ) -> RaceShare<'a, J, G>
        requires own { IsSeatOf race.now seat }
        requires fresh { IsFresh seat.party × (seat.party.width ≡ width) }
        requires width { width ≤ 64 }
        ensures { (result.race ≡ race.now) × (result.first ≡ 0) × (result.width ≡ width) × (result.done ≡ false) }
    {
        RaceShare {
            race,
            gate,
            phase,
            seat,
            first: 0,
            width,
            done: false,
        }
    }

    /// The seat of a done share.
    pub fn into_seat(self) -> RaceSeat
        requires { self.done ≡ true }
        ensures own { IsSeatOf self.entry.race result }
        ensures whole { (result.party.width ≡ self.entry.width) × (result.party.passes ≡ self.entry.width) }
        ensures exact { result.party.proposals ≡ offers_from self.entry.race.jobs result.party.claims }
    {
        let RaceShare {
            race: _,
            gate: _,
            phase: _,
            seat,
            first: _,
            width: _,
            done: _,
        } = self;
        seat
    }
}

impl<'a, J: Jobs + Sync, G: Gate> Share for RaceShare<'a, J, G> {
    ghost use Rattle.std.specs.Prelude.{◌≡◌, refl};
    ghost use Rattle.std.proofs.Common.{sym, ◌∙◌};

    ghost start = { λ s. s.first };

    ghost breadth = { λ s. s.width };

    ghost is_done = { λ s. s.done };

    ghost belongs = { λ s t. s.race ≡ t.race };

    fn split(&mut self, width: u32) -> Self {
        let seat = self.race.split(&mut self.seat, width);
        self.width -= width;
        RaceShare {
            race: self.race,
            gate: self.gate,
            phase: self.phase,
            seat,
            first: self.first + self.width,
            width,
            done: false,
        }
    }

    fn take_back(&mut self, part: Self) {
        let RaceShare {
            race: _,
            gate: _,
            phase: _,
            seat,
            first: _,
            width,
            done: _,
        } = part;
        self.race.join(&mut self.seat, seat);
        self.width += width;
    }

    // Claims jobs until none is left, and makes all their offers.
    fn work(&mut self, worker: u32) {
        while let Some(job) = self.race.claim(&mut self.seat) {
            self.gate.turn(self.phase, worker, job);
            propose_all(self.race, &mut self.seat, job);
        }
        self.done = true;
    }

    ghost belongs_self = { λ x. refl };

    ghost belongs_back = { λ x y e. sym e };

    ghost belongs_on = { λ x y z e f. e ∙ f };
}
