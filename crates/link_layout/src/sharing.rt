//! What is written into windows, by several workers: each makes the list of a range of sources.
ghost use Rattle.std.specs.Prelude.{◌≡◌, ◌+◌, ◌<◌, ◌≤◌, ◌^◌, map, length, slice_range, Ok, All, IfOk, IfSome};
ghost use Rattle.link_program.specs.Seen.{NamesOne};
ghost use Rattle.wl_rows.specs.Ranges.{Rising, AreRanges};
ghost use Rattle.link_layout.specs.Seen.{AreTargets, usual_target};
ghost use Rattle.link_layout.specs.Put.{written_of};
ghost use Rattle.link_layout.specs.Sources.{windows_of};
ghost use Rattle.link_layout.specs.Parts.{sources_in, IsWritten, AreWritten, AreJoined};
ghost use Rattle.link_layout.specs.PartLaws.{rows_prop};
ghost use Rattle.link_layout.specs.Layout.{looked, AreThere};

use crate::Layout;
use crate::gathering::{Source, count_windows};
use crate::patches::push_sources;
use link_program::{Tables, row_at};
use patch_pieces::Pieces;
use reloc_apply::Patches;
use std::alloc::Global;
use std::thread::Threads;
use wl_base::OutOfMemory;
use wl_fan::{Slices, Workers, each_slice};
use wl_rows::Ranges;

/// So many windows are worth a thread: starting one costs 15 to 40 microseconds, and a window some 20 nanoseconds.
const GRAIN: usize = 1 << 14;

/// What a worker leaves: nothing where a value is out of range, or where memory is refused to it.
type Slot = Option<Patches>;

/// The sources from one place to another.
fn between(sources: &[Source], from: usize, to: usize) -> &[Source]
    requires up { from ≤ to }
    requires inside { to ≤ length sources.now }
    ensures { result.now ≡ slice_range sources.now from to }
{
    &sources[from..][..to - from]
}

/// What is written into the windows of sources.
fn written(alloc: Global, layout: Layout<'_>, targets: &[u64], sources: &[Source]) -> Slot
    requires there { AreThere layout }
    requires targets { AreTargets (looked layout) targets.now }
    ensures { IfSome result (IsWritten (looked layout.entry) sources.now) }
{
    let count = count_windows(layout.program.tables, sources);
    let Ok(mut patches) = Patches::with_capacity(alloc, count) else {
        return None;
    };
    let Ok(()) = push_sources(&mut patches, layout, targets, sources) else {
        return None;
    };
    Some(patches)
}

/// Sources whose windows are written by ranges.
#[derive(Drop)]
struct Sharing<'a> {
    alloc: Global,
    layout: Layout<'a>,
    targets: &'a [u64],
    sources: &'a [Source],
    ranges: &'a Ranges,
    ghost rows: { All (λ row. All (NamesOne layout.program.tables.now.symbols layout.program.tables.now.types) row) layout.program.tables.now.named } by { rows_prop layout.program.tables.now.symbols layout.program.tables.now.types layout.program.tables.now.named },
    ghost types: { length layout.numbering.now.type_numbers ≡ length layout.program.tables.now.types },
    ghost are: { targets.now ≡ map (usual_target (looked layout)) layout.program.tables.now.symbols },
    ghost small: { All (λ t. t < 2 ^ 33) targets.now },
    ghost rising: { Rising ranges.now.cuts ranges.now.count },
    ghost whole: { ranges.now.count ≡ length sources.now },
}

impl Sharing<'_> {
    /// The sources of a worker.
    fn part(&self, worker: u32) -> &[Source]
        requires { worker + 1 < 2 ^ 32 }
        ensures { result.now ≡ sources_in self.now.sources.now self.now.ranges.now.cuts self.now.ranges.now.count worker }
    {
        let from = self.ranges.first(worker) as usize;
        let to = self.ranges.first(worker + 1) as usize;
        between(self.sources, from, to)
    }

    /// What a worker makes.
    fn made(&self, worker: u32) -> Slot
        requires { worker + 1 < 2 ^ 32 }
        ensures { IfSome result (IsWritten (looked self.now.layout) (sources_in self.now.sources.now self.now.ranges.now.cuts self.now.ranges.now.count worker)) }
    {
        let sources = self.part(worker);
        written(self.alloc, self.layout, self.targets, sources)
    }
}

impl Slices<Slot> for Sharing<'_> {
    ghost use Rattle.std.specs.Prelude.{◌≡◌, ◌+◌};
    ghost use Rattle.link_layout.specs.Parts.{sources_in, IsFirst};
    ghost use Rattle.link_layout.specs.Layout.{looked};

    ghost begins = { λ s worker. worker };

    ghost worked = { λ s worker old new. IsFirst (looked s.layout) (sources_in s.sources.now s.ranges.now.cuts s.ranges.now.count worker) new };

    ghost rises = { λ s p q le below. le };

    fn cut(&self, worker: u32) -> usize {
        worker as usize
    }

    fn work(&self, worker: u32, slots: &mut [Slot]) {
        slots[0] = self.made(worker);
    }
}

/// So many empty slots.
fn empty_slots(alloc: Global, workers: u32) -> Result<Vec<Slot>, OutOfMemory>
    ensures { IfOk result (λ slots. length slots.items ≡ workers) }
{
    let mut slots = Vec::new(alloc);
    for _worker in 0..workers {
        slots.push(None)?;
    }
    Ok(slots)
}

/// What each worker makes.
fn made_slots<R: Threads + Sync>(
    rt: &R,
    alloc: Global,
    layout: Layout<'_>,
    targets: &[u64],
    sources: &[Source],
    ranges: &Ranges,
) -> Result<Vec<Slot>, OutOfMemory>
    requires there { AreThere layout }
    requires targets { AreTargets (looked layout) targets.now }
    requires ranges { AreRanges 63 ranges.now.cuts ranges.now.count }
    requires count { ranges.now.count ≡ length sources.now }
    ensures { IfOk result (λ slots. AreWritten (looked layout.entry) sources.now ranges.now.cuts ranges.now.count slots.items) }
{
    let workers = ranges.workers();
    let mut slots = empty_slots(alloc, workers)?;
    let sharing = Sharing {
        alloc,
        layout,
        targets,
        sources,
        ranges,
    };
    each_slice(rt, &sharing, slots.as_mut_slice(), 0, workers);
    Ok(slots)
}

/// The sources of each worker, who has as many windows as the others, as far as whole sources allow it.
fn ranges_for(
    alloc: Global,
    tables: &Tables,
    sources: &[Source],
    count: usize,
    workers: Workers,
) -> Result<Ranges, OutOfMemory>
    ensures ranges { IfOk result (λ r. AreRanges 63 r.cuts r.count) }
    ensures count { IfOk result (λ r. r.count ≡ length sources.now) }
{
    let workers = workers.count() as usize;
    let share = (count / workers).max(GRAIN);
    let mut ranges = Ranges::new(alloc);
    for source in sources {
        ranges.add(row_at(tables, source.number).len(), share, workers - 1)?;
    }
    Ok(ranges)
}

/// The lists of so many workers, one behind another; `None` where a slot is empty.
fn joined(alloc: Global, slots: Vec<Slot>, workers: u32) -> Result<Option<Pieces>, OutOfMemory>
    ensures { IfOk result (λ all. IfSome all (AreJoined workers slots.items)) }
{
    let mut left = slots.into_iter();
    let mut pieces = Pieces::new(alloc);
    for _worker in 0..workers {
        let Some(Some(patches)) = left.next() else {
            return Ok(None);
        };
        pieces.push(patches)?;
    }
    Ok(Some(pieces))
}

/// What is written into the windows of sources, of which there are so many, by the workers. `None` where a value is out of range, or where
/// memory is refused to a worker.
pub(crate) fn shared_patches<R: Threads + Sync>(
    rt: &R,
    alloc: Global,
    layout: Layout<'_>,
    targets: &[u64],
    sources: &[Source],
    count: usize,
    workers: Workers,
) -> Result<Option<Pieces>, OutOfMemory>
    requires there { AreThere layout }
    requires targets { AreTargets (looked layout) targets.now }
    ensures { IfOk result (λ shared. IfSome shared (λ pieces. written_of (looked layout.entry).mode (windows_of (looked layout.entry) sources.now) ≡ Ok pieces)) }
{
    let ranges = ranges_for(alloc, layout.program.tables, sources, count, workers)?;
    let slots = made_slots(rt, alloc, layout, targets, sources, &ranges)?;
    joined(alloc, slots, ranges.workers())
}
