//! What is looked up of all objects, made by several workers: a piece each, of a range of objects.
ghost use Rattle.std.specs.Prelude.{◌≡◌, ◌+◌, ◌<◌, ◌≤◌, ◌^◌, length, IfOk, IfSome};
ghost use Rattle.wl_rows.specs.Ranges.{first_at, Rising, AreRanges};
ghost use Rattle.name_entries.specs.View.{GroupsAre};
ghost use Rattle.name_entries.specs.Fits.{GroupsAreNumbered};
ghost use Rattle.name_entries.specs.Pieces.{IsPiece, AreMade, AreJoined};

use crate::pieces::Piece;
use comdat_pick::ComdatWinners;
use link_names::Names;
use name_rules::Object;
use std::alloc::Global;
use std::thread::Threads;
use wl_base::OutOfMemory;
use wl_fan::{Slices, Workers, each_slice};
use wl_rows::Ranges;

/// So many symbols are worth a thread: starting one costs 15 to 40 microseconds, and a symbol some 20 nanoseconds.
const GRAIN: usize = 1 << 14;

/// What is looked up in, and the objects of each worker.
#[derive(Drop)]
struct Making<'a> {
    alloc: Global,
    objects: &'a [Object],
    names: &'a Names,
    groups: &'a ComdatWinners,
    ranges: &'a Ranges,
    ghost numbers: { GroupsAreNumbered objects.now names.now },
    ghost winners: { GroupsAre names.now.names objects.now groups.now },
    ghost rising: { Rising ranges.now.cuts ranges.now.count },
    ghost whole: { ranges.now.count ≡ length objects.now },
}

/// What a worker leaves: nothing where memory is refused to it.
pub(crate) type Slot = Option<Piece>;

impl Making<'_> {
    /// What a worker makes.
    fn made(&self, worker: u32) -> Slot
        requires { worker + 1 < 2 ^ 32 }
        ensures { IfSome result (IsPiece self.now.objects.now self.now.names.now.symbols
            (first_at self.now.ranges.now.cuts self.now.ranges.now.count worker) (first_at self.now.ranges.now.cuts self.now.ranges.now.count (worker + 1))) }
    {
        let from = self.ranges.first(worker);
        let to = self.ranges.first(worker + 1);
        match Piece::of(self.alloc, self.objects, self.names, self.groups, from, to) {
            Ok(piece) => Some(piece),
            Err(_) => None,
        }
    }
}

impl Slices<Slot> for Making<'_> {
    ghost use Rattle.std.specs.Prelude.{◌≡◌, ◌+◌};
    ghost use Rattle.wl_rows.specs.Ranges.{first_at};
    ghost use Rattle.name_entries.specs.Pieces.{IsMade};

    ghost begins = { λ s worker. worker };

    ghost worked = { λ s worker old new. IsMade s.objects.now s.names.now.symbols (first_at s.ranges.now.cuts s.ranges.now.count worker) (first_at s.ranges.now.cuts s.ranges.now.count (worker + 1)) new };

    ghost rises = { λ s p q le below. le };

    fn cut(&self, worker: u32) -> usize {
        worker as usize
    }

    fn work(&self, worker: u32, slots: &mut [Slot]) {
        slots[0] = self.made(worker);
    }
}

/// So many empty slots.
fn empty_slots(alloc: Global, workers: u32) -> Result<Vec<Slot>, OutOfMemory>
    ensures { IfOk result (λ slots. length slots.items ≡ workers) }
{
    let mut slots = Vec::new(alloc);
    for _worker in 0..workers {
        slots.push(None)?;
    }
    Ok(slots)
}

/// What each worker makes.
fn made_slots<R: Threads + Sync>(
    rt: &R,
    alloc: Global,
    objects: &[Object],
    names: &Names,
    groups: &ComdatWinners,
    ranges: &Ranges,
) -> Result<Vec<Slot>, OutOfMemory>
    requires numbers { GroupsAreNumbered objects.now names.now }
    requires groups { GroupsAre names.now.names objects.now groups.now }
    requires ranges { AreRanges 63 ranges.now.cuts ranges.now.count }
    requires count { ranges.now.count ≡ length objects.now }
    ensures { IfOk result (λ slots. AreMade objects.now names.now.symbols ranges.now.cuts ranges.now.count slots.items) }
{
    let workers = ranges.workers();
    let mut slots = empty_slots(alloc, workers)?;
    let making = Making {
        alloc,
        objects,
        names,
        groups,
        ranges,
    };
    each_slice(rt, &making, slots.as_mut_slice(), 0, workers);
    Ok(slots)
}

/// How many symbols objects have, as far as a number holds it.
fn count_symbols(objects: &[Object]) -> usize {
    let mut symbols = 0usize;
    for from in objects {
        symbols = symbols.saturating_add(from.symbols.len());
    }
    symbols
}

/// How many symbols a worker has at least, where there are so many workers.
fn share_of(objects: &[Object], workers: usize) -> usize {
    if workers <= 1 {
        return 0;
    }
    (count_symbols(objects) / workers).max(GRAIN)
}

/// The objects of each worker. One worker has all of them where they have few symbols.
fn ranges_for(alloc: Global, objects: &[Object], workers: Workers) -> Result<Ranges, OutOfMemory>
    ensures ranges { IfOk result (λ r. AreRanges 63 r.cuts r.count) }
    ensures count { IfOk result (λ r. r.count ≡ length objects.now) }
{
    let workers = workers.count() as usize;
    let share = share_of(objects, workers);
    let mut ranges = Ranges::new(alloc);
    for from in objects {
        ranges.add(from.symbols.len(), share, workers - 1)?;
    }
    Ok(ranges)
}

/// The pieces of the workers' slots, one behind another.
fn joined(slots: Vec<Slot>, workers: u32) -> Result<Piece, OutOfMemory>
    requires { 1 ≤ workers }
    ensures { IfOk result (AreJoined workers slots.items) }
{
    let mut left = slots.into_iter();
    let Some(Some(first)) = left.next() else {
        return Err(OutOfMemory);
    };
    let mut all = first;
    for _worker in 1..workers {
        let Some(Some(piece)) = left.next() else {
            return Err(OutOfMemory);
        };
        all.add(piece)?;
    }
    Ok(all)
}

/// What is looked up of all objects, made by the workers.
pub(crate) fn made_piece<R: Threads + Sync>(
    rt: &R,
    alloc: Global,
    objects: &[Object],
    names: &Names,
    groups: &ComdatWinners,
    workers: Workers,
) -> Result<Piece, OutOfMemory>
    requires numbers { GroupsAreNumbered objects.now names.now }
    requires groups { GroupsAre names.now.names objects.now groups.now }
    ensures { IfOk result (IsPiece objects.now names.now.symbols 0 (length objects.now)) }
{
    let ranges = ranges_for(alloc, objects, workers)?;
    let slots = made_slots(rt, alloc, objects, names, groups, &ranges)?;
    let piece = joined(slots, ranges.workers())?;
    Ok(piece)
}
