//! A share of a round.
ghost use Rattle.std.specs.Prelude.{◌≡◌, ◌≤◌, true, false};

use crate::edges::Edges;
use crate::found::Found;
use crate::plan::{Plan, begin};
use crate::work::{cut_seat, mark_some};
use mark_bits::MarkSeat;
use std::marker::{Brand, Model, PhantomData};
use wl_fan::Share;
use wl_outside::{Gate, Phase};

/// The party that began a round, for the proof alone. A call picks it.
pub trait Before: Send {
    ghost use Rattle.mark_bits.specs.declared.party.Party.{Party};

    ghost party: { Party };
}

impl Before for Brand {
    ghost use Rattle.mark_bits.specs.Marks.{spent};

    ghost party = { spent };
}

/// Some parts of a round, with the seat that marks for them, and what it marked first.
pub struct MarkShare<'a, E: Edges, G: Gate, B: Before> {
    plan: Plan<'a>,
    parts: u32,
    edges: &'a E,
    gate: &'a G,
    before: PhantomData<B>,
    seat: MarkSeat,
    found: Found,
    first: u32,
    width: u32,
    done: bool,
}

impl<'a, E: Edges, G: Gate, B: Before> Model for MarkShare<'a, E, G, B> {
    ghost use Rattle.live_mark.specs.Shares.{ShareView, IsShare};
    ghost use Rattle.live_mark.specs.Plans.{round_of};

    ghost Value = { ShareView };

    ghost view = { λ s. record { round = round_of (E.targets s.edges.now) B.party s.parts s.plan; first = s.first; width = s.width; done = s.done } };

    ghost invariant = { λ s. IsShare (round_of (E.targets s.edges.now) B.party s.parts s.plan) s.seat s.found.chunks.items s.found.refused s.first s.width s.done };
}

impl<'a, E: Edges, G: Gate, B: Before> MarkShare<'a, E, G, B> {
    ghost use Rattle.mark_bits.specs.Seats.{IsSeatOf};
    ghost use Rattle.live_mark.specs.Asks.{RoundDone};
    ghost use Rattle.live_mark.specs.Shares.{IsRound, asked_of};
    ghost use Rattle.live_mark.specs.Plans.{round_of};

    /// All parts of the round.
    pub fn new(
        plan: Plan<'a>,
        parts: u32,
        edges: &'a E,
        gate: &'a G,
        seat: MarkSeat,
    ) -> MarkShare<'a, E, G, B>
        requires round { IsRound (round_of (E.targets edges.now) B.party parts plan) }
        requires seat { IsSeatOf (round_of (E.targets edges.now) B.party parts plan).bits seat × (seat.party ≡ B.party) }
        ensures { (result.round ≡ round_of (E.targets edges.now) B.party parts plan.entry) × (result.first ≡ 0) × (result.width ≡ parts) × (result.done ≡ false) }
    {
        MarkShare {
            plan,
            parts,
            edges,
            gate,
            before: PhantomData,
            seat,
            found: Found::new(plan.alloc),
            first: 0,
            width: parts,
            done: false,
        }
    }

    /// The seat, and what it marked first in the round.
    pub fn into_seat(self) -> (MarkSeat, Found)
        requires { (self.done ≡ true) × (self.first ≡ 0) × (self.width ≡ self.round.parts) }
        ensures { RoundDone self.entry.round.bits self.entry.round.before (asked_of self.entry.round) result.0 result.1.chunks.items result.1.refused }
    {
        let MarkShare {
            plan: _,
            parts: _,
            edges: _,
            gate: _,
            before: _,
            seat,
            found,
            first: _,
            width: _,
            done: _,
        } = self;
        (seat, found)
    }
}

impl<'a, E: Edges, G: Gate, B: Before> Share for MarkShare<'a, E, G, B> {
    ghost use Rattle.std.specs.Prelude.{◌≡◌, refl};
    ghost use Rattle.std.proofs.Common.{sym, ◌∙◌};

    ghost start = { λ s. s.first };

    ghost breadth = { λ s. s.width };

    ghost is_done = { λ s. s.done };

    ghost belongs = { λ s t. s.round ≡ t.round };

    fn split(&mut self, width: u32) -> Self {
        let seat = cut_seat(self.plan.bits, &mut self.seat, width);
        self.width -= width;
        MarkShare {
            plan: self.plan,
            parts: self.parts,
            edges: self.edges,
            gate: self.gate,
            before: PhantomData,
            seat,
            found: Found::new(self.plan.alloc),
            first: self.first + self.width,
            width,
            done: false,
        }
    }

    fn take_back(&mut self, part: Self) {
        let MarkShare {
            plan: _,
            parts: _,
            edges: _,
            gate: _,
            before: _,
            seat,
            found,
            first: _,
            width,
            done: _,
        } = part;
        self.plan.bits.join(&mut self.seat, seat);
        self.found.append(found);
        self.width += width;
    }

    // Marks what each place of the part asks for. The worker passes the gate before each place.
    fn work(&mut self, worker: u32) {
        let Plan {
            bits,
            rooting,
            places,
            ..
        } = self.plan;
        let edges = self.edges;
        let from = begin(places.len(), self.parts, self.first);
        let to = begin(places.len(), self.parts, self.first + self.width);
        for place in from..to {
            self.gate.turn(Phase::Mark, worker, place as u32);
            let chunk = places[place];
            if rooting {
                mark_some(bits, &mut self.seat, Some(chunk), &mut self.found);
                continue;
            }
            let row = edges.row(chunk);
            for item in row {
                let target = edges.target(item);
                mark_some(bits, &mut self.seat, target, &mut self.found);
            }
        }
        self.done = true;
    }

    ghost belongs_self = { λ x. refl };

    ghost belongs_back = { λ x y e. sym e };

    ghost belongs_on = { λ x y z e f. e ∙ f };
}
