//! Rounds of marks.
ghost use Rattle.std.specs.Prelude.{◌≡◌, ℕ, ◌<◌, ◌≤◌, ◌^◌, [], true, false, length, slice_index_or, IfOk};
ghost use Rattle.mark_bits.specs.Words.{bit_of};
ghost use Rattle.mark_bits.specs.Reach.{Reached};
ghost use Rattle.mark_bits.specs.Seats.{IsSeatOf};
ghost use Rattle.live_mark.specs.Asks.{Below, AllBelow, asks, IsPlan, RoundDone};
ghost use Rattle.live_mark.specs.Going.{Going};

use crate::edges::Edges;
use crate::found::Found;
use crate::plan::{Plan, parts_of};
use crate::share::{Before, MarkShare};
use mark_bits::{MarkBits, MarkSeat, MarkSet};
use std::alloc::Global;
use std::marker::Brand;
use std::thread::Threads;
use wl_base::OutOfMemory;
use wl_fan::{Workers, each_half};
use wl_outside::Gate;

/// The chunks that the roots reach: those at which a walk along the references from a root ends.
///
/// The roots are marked in the first round. In each later one the frontier, which is the chunks that were
/// marked first in the round before, is divided among the workers, who mark what it refers to. Each worker
/// passes the gate before each place of its part. A round with few places has one part, on the caller's
/// thread; but two roots are marked by two workers, where there are so many.
pub fn live<E: Edges, G: Gate, R: Threads + Sync>(
    rt: &R,
    alloc: Global,
    edges: &E,
    roots: &[u32],
    workers: Workers,
    gate: &G,
) -> Result<MarkSet, OutOfMemory>
    requires count { (length (E.targets edges.now) < 2 ^ 32) × (length roots.now < 2 ^ 32) }
    requires roots { Below (length (E.targets edges.now)) roots.now }
    requires targets { AllBelow (E.targets edges.now) }
    ensures chunks { IfOk result (λ m. m.chunks ≡ length (E.targets edges.now)) }
    ensures sound { IfOk result (λ m. (c : ℕ) → bit_of m.words c ≡ 1 → Reached (E.targets edges.now) roots.now c) }
    ensures whole { IfOk result (λ m. (c : ℕ) → Reached (E.targets edges.now) roots.now c → bit_of m.words c ≡ 1) }
{
    let chunks = edges.count() as u32;
    let count = workers.count();
    let (bits, seat) = MarkBits::new(alloc, chunks, count)?;
    let opening = Plan {
        alloc,
        bits: &bits,
        rooting: true,
        places: roots,
        workers: count,
    };
    let (seat, found) = round(rt, opening, edges, gate, seat);
    let seat = spread(rt, opening, edges, gate, seat, found.into_chunks()?)?;
    Ok(bits.finish(seat))
}

// The later rounds, until one marks nothing first.
fn spread<E: Edges, G: Gate, R: Threads + Sync>(
    rt: &R,
    opening: Plan,
    edges: &E,
    gate: &G,
    mut seat: MarkSeat,
    mut frontier: Vec<u32>,
) -> Result<MarkSeat, OutOfMemory>
    requires going { Going opening.bits.now (E.targets edges.now) opening.places.now opening.workers seat frontier.items }
    requires workers { (1 ≤ opening.workers) × (opening.workers ≤ 64) }
    requires count { (opening.bits.now.chunks ≡ length (E.targets edges.now)) × (length (E.targets edges.now) < 2 ^ 32) }
    requires targets { AllBelow (E.targets edges.now) }
    ensures { IfOk result (λ s. Going opening.entry.bits.now (E.targets edges.now) opening.entry.places.now opening.entry.workers s []) }
{
    while frontier.len() > 0 {
        let plan = Plan {
            rooting: false,
            places: frontier.as_slice(),
            ..opening
        };
        let (next, found) = round(rt, plan, edges, gate, seat);
        seat = next;
        frontier = found.into_chunks()?;
    }
    Ok(seat)
}

// A round: what each place asks for is marked.
fn round<E: Edges, G: Gate, R: Threads + Sync>(
    rt: &R,
    plan: Plan,
    edges: &E,
    gate: &G,
    seat: MarkSeat,
) -> (MarkSeat, Found)
    requires workers { (1 ≤ plan.workers) × (plan.workers ≤ 64) × (seat.party.width ≡ plan.workers) }
    requires plan { IsPlan plan.bits.now plan.rooting (E.targets edges.now) plan.places.now }
    requires own { IsSeatOf plan.bits.now seat }
    ensures { RoundDone plan.entry.bits.now seat.party (asks plan.entry.rooting (E.targets edges.now) plan.entry.places.now) result.0 result.1.chunks.items result.1.refused }
{
    round_from::<Brand, E, G, R>(rt, plan, edges, gate, seat)
}

// B is the seat's party, for the proof.
fn round_from<B: Before, E: Edges, G: Gate, R: Threads + Sync>(
    rt: &R,
    plan: Plan,
    edges: &E,
    gate: &G,
    seat: MarkSeat,
) -> (MarkSeat, Found)
    requires picked { B.party ≡ seat.party }
    requires workers { (1 ≤ plan.workers) × (plan.workers ≤ 64) × (seat.party.width ≡ plan.workers) }
    requires plan { IsPlan plan.bits.now plan.rooting (E.targets edges.now) plan.places.now }
    requires own { IsSeatOf plan.bits.now seat }
    ensures { RoundDone plan.entry.bits.now seat.party (asks plan.entry.rooting (E.targets edges.now) plan.entry.places.now) result.0 result.1.chunks.items result.1.refused }
{
    let parts = parts_of(plan.places.len(), plan.rooting, plan.workers);
    let share = MarkShare::<E, G, B>::new(plan, parts, edges, gate, seat);
    halved(rt, share, parts).into_seat()
}

// Works the share of a whole round.
fn halved<'a, E: Edges, G: Gate, B: Before, R: Threads + Sync>(
    rt: &R,
    mut share: MarkShare<'a, E, G, B>,
    parts: u32,
) -> MarkShare<'a, E, G, B>
    requires share { (share.first ≡ 0) × (share.width ≡ parts) × (share.done ≡ false) }
    requires parts { (1 ≤ parts) × (parts ≤ 64) }
    ensures { (result.round ≡ share.entry.round) × (result.first ≡ 0) × (result.width ≡ parts) × (result.done ≡ true) }
{
    each_half(rt, &mut share, 0, parts);
    share
}
