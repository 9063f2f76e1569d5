//! What live parts ask for, noted by several workers: each notes a range of the parts, and what they have noted is joined in order.
ghost use Rattle.std.specs.Prelude.{◌≡◌, ◌+◌, ◌<◌, ◌≤◌, ◌^◌, length, map, replicate, slice_range, None, Some, IfOk, IfSome, OnOk};
ghost use Rattle.wl_rows.specs.Ranges.{first_at, Rising, AreRanges};
ghost use Rattle.link_keys.specs.Asked.{sort_of};
ghost use Rattle.link_keys.specs.Noted.{noted_parts, nothing_noted};
ghost use Rattle.link_keys.specs.Joined.{both_joined, joined_all, AreNoted};

use crate::asked::Sort;
use crate::marking::marks_in;
use crate::marks::Marks;
use link_program::{Tables, row_at};
use std::alloc::Global;
use std::thread::Threads;
use wl_base::OutOfMemory;
use wl_fan::{Slices, Workers, each_slice};
use wl_rows::Ranges;

/// So many items that parts name are worth a thread: starting one costs 15 to 40 microseconds, and what is joined behind it as much as there are
/// imports and names.
const GRAIN: usize = 1 << 17;

/// How many items live parts name, as far as a number holds it.
fn count_named(tables: &Tables, live: &[u32]) -> usize {
    let mut count = 0usize;
    for number in live {
        count = count.saturating_add(row_at(tables, *number).len());
    }
    count
}

/// How many items a worker has at least, where there are so many workers.
fn share_of(tables: &Tables, live: &[u32], workers: usize) -> usize {
    if workers <= 1 {
        return 0;
    }
    (count_named(tables, live) / workers).max(GRAIN)
}

/// What a live part weighs; nothing where one worker has all.
fn weight_of(tables: &Tables, number: u32, share: usize) -> usize {
    if share == 0 {
        0
    } else {
        row_at(tables, number).len()
    }
}

/// The live parts of each worker, by their places. One worker has all of them where they name little.
pub(crate) fn ranges_for(
    alloc: Global,
    tables: &Tables,
    live: &[u32],
    workers: Workers,
) -> Result<Ranges, OutOfMemory>
    ensures ranges { IfOk result (λ r. AreRanges 63 r.cuts r.count) }
    ensures count { IfOk result (λ r. r.count ≡ length live.now) }
{
    let workers = workers.count() as usize;
    let share = share_of(tables, live, workers);
    let mut ranges = Ranges::new(alloc);
    for number in live {
        ranges.add(weight_of(tables, *number, share), share, workers - 1)?;
    }
    Ok(ranges)
}

/// The live parts from one place to another.
fn between(live: &[u32], from: usize, to: usize) -> &[u32]
    requires up { from ≤ to }
    requires inside { to ≤ length live.now }
    ensures { result.now ≡ slice_range live.now from to }
{
    &live[from..][..to - from]
}

/// What live parts ask for, unless memory is refused.
fn marks_or_none(
    alloc: Global,
    tables: &Tables,
    sorts: &[Sort],
    live: &[u32],
    imports: usize,
    names: usize,
) -> Option<Marks>
    requires { sorts.now ≡ map sort_of tables.now.symbols }
    ensures { IfSome result (λ m. m ≡ noted_parts tables.now (nothing_noted imports names) live.now) }
{
    let Ok(marks) = marks_in(alloc, tables, sorts, live, imports, names) else {
        return None;
    };
    Some(marks)
}

/// Live parts that are noted by ranges.
#[derive(Drop)]
struct Sharing<'a> {
    alloc: Global,
    tables: &'a Tables,
    sorts: &'a [Sort],
    live: &'a [u32],
    imports: usize,
    names: usize,
    ranges: &'a Ranges,
    ghost sorted: { sorts.now ≡ map sort_of tables.now.symbols },
    ghost rising: { Rising ranges.now.cuts ranges.now.count },
    ghost whole: { ranges.now.count ≡ length live.now },
}

impl Sharing<'_> {
    /// The live parts of a worker.
    fn part(&self, worker: u32) -> &[u32]
        requires { worker + 1 < 2 ^ 32 }
        ensures { result.now ≡ slice_range self.now.live.now (first_at self.now.ranges.now.cuts self.now.ranges.now.count worker)
            (first_at self.now.ranges.now.cuts self.now.ranges.now.count (worker + 1)) }
    {
        let from = self.ranges.first(worker) as usize;
        let to = self.ranges.first(worker + 1) as usize;
        between(self.live, from, to)
    }
}

impl Slices<Option<Marks>> for Sharing<'_> {
    ghost use Rattle.std.specs.Prelude.{◌≡◌, ◌+◌, slice_range};
    ghost use Rattle.wl_rows.specs.Ranges.{first_at};
    ghost use Rattle.link_keys.specs.Joined.{IsNoted};

    ghost begins = { λ s worker. worker };

    ghost worked = { λ s worker old new. IsNoted s.tables.now s.imports s.names
        (slice_range s.live.now (first_at s.ranges.now.cuts s.ranges.now.count worker) (first_at s.ranges.now.cuts s.ranges.now.count (worker + 1))) new };

    ghost rises = { λ s p q le below. le };

    fn cut(&self, worker: u32) -> usize {
        worker as usize
    }

    fn work(&self, worker: u32, slots: &mut [Option<Marks>]) {
        let live = self.part(worker);
        slots[0] = marks_or_none(
            self.alloc,
            self.tables,
            self.sorts,
            live,
            self.imports,
            self.names,
        );
    }
}

/// A slot for each worker, without marks.
fn new_slots(alloc: Global, workers: u32) -> Result<Vec<Option<Marks>>, OutOfMemory>
    ensures { IfOk result (λ slots. slots.items ≡ replicate workers None) }
{
    let mut slots = Vec::new(alloc);
    for _worker in 0..workers {
        slots.push(None)?;
    }
    Ok(slots)
}

/// What each worker noted of its live parts; nothing stands where memory was refused to it.
pub(crate) fn each_noted<R: Threads + Sync>(
    rt: &R,
    alloc: Global,
    tables: &Tables,
    sorts: &[Sort],
    live: &[u32],
    imports: usize,
    names: usize,
    ranges: &Ranges,
) -> Result<Vec<Option<Marks>>, OutOfMemory>
    requires sorted { sorts.now ≡ map sort_of tables.now.symbols }
    requires ranges { AreRanges 63 ranges.now.cuts ranges.now.count }
    requires count { ranges.now.count ≡ length live.now }
    ensures { IfOk result (λ slots. AreNoted tables.now imports names live.now ranges.now.cuts ranges.now.count slots.items) }
{
    let workers = ranges.workers();
    let mut slots = new_slots(alloc, workers)?;
    let sharing = Sharing {
        alloc,
        tables,
        sorts,
        live,
        imports,
        names,
        ranges,
    };
    each_slice(rt, &sharing, slots.as_mut_slice(), 0, workers);
    Ok(slots)
}

/// Joins what a worker noted behind what others noted.
fn join_slot(marks: &mut Marks, slot: Option<Marks>) -> Result<(), OutOfMemory>
    ensures { OnOk result (both_joined (Some marks.old) slot ≡ Some marks.new) }
{
    let Some(more) = slot else {
        return Err(OutOfMemory);
    };
    marks.join(&more)?;
    Ok(())
}

/// What all workers noted, in order. Where memory was refused to one of them there is nothing.
#[tactic(auto, using(crate::proofs::Joining::joined_begun, crate::proofs::Joining::joined_next, crate::proofs::Joining::joined_ended))]
pub(crate) fn all_joined(slots: Vec<Option<Marks>>) -> Result<Marks, OutOfMemory>
    ensures { IfOk result (λ m. joined_all slots.items ≡ Some m) }
{
    let mut left = slots.into_iter();
    let Some(first) = left.next() else {
        return Err(OutOfMemory);
    };
    let Some(first) = first else {
        return Err(OutOfMemory);
    };
    let mut marks = first;
    while let Some(slot) = left.next() {
        join_slot(&mut marks, slot)?;
    }
    Ok(marks)
}
