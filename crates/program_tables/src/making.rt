//! The parts of all objects, made by several workers: a piece each, of a range of objects.
ghost use Rattle.std.specs.Prelude.{◌≡◌, ◌-◌, ◌+◌, ◌∷◌, ◌<◌, ◌≤◌, length, slice_get, Some, replicate, IfOk};
ghost use Rattle.wl_rows.specs.Ranges.{first_at, Rising, AreRanges};
ghost use Rattle.program_tables.specs.Pieces.{no_piece, AreGrown};

use crate::pieces::Piece;
use crate::view::Lookups;
use std::alloc::Global;
use std::thread::Threads;
use wl_base::OutOfMemory;
use wl_fan::{Slices, each_slice};
use wl_rows::Ranges;

/// Objects whose parts are made by ranges.
#[derive(Drop)]
struct Making<'a> {
    alloc: Global,
    lookups: Lookups<'a>,
    ranges: &'a Ranges,
    ghost long: { length lookups.entries.parts.now ≡ length lookups.entries.objects.now },
    ghost rising: { Rising ranges.now.cuts ranges.now.count },
    ghost whole: { ranges.now.count ≡ length lookups.entries.objects.now },
}

impl Slices<Piece> for Making<'_> {
    ghost use Rattle.std.specs.Prelude.{◌≡◌, ◌+◌};
    ghost use Rattle.wl_rows.specs.Ranges.{first_at};
    ghost use Rattle.program_tables.specs.Pieces.{IsGrown};

    ghost begins = { λ s worker. worker };

    ghost worked = { λ s worker old new. IsGrown s.lookups (first_at s.ranges.now.cuts s.ranges.now.count worker) (first_at s.ranges.now.cuts s.ranges.now.count (worker + 1)) old new };

    ghost rises = { λ s p q le below. le };

    fn cut(&self, worker: u32) -> usize {
        worker as usize
    }

    fn work(&self, worker: u32, pieces: &mut [Piece]) {
        let from = self.ranges.first(worker);
        let to = self.ranges.first(worker + 1);
        pieces[0].gain(self.alloc, self.lookups, from, to);
    }
}

/// A piece for each worker: this one for the first, and one without parts for each other.
fn new_pieces(alloc: Global, first: Piece, workers: u32) -> Result<Vec<Piece>, OutOfMemory>
    requires { 1 ≤ workers }
    ensures { IfOk result (λ pieces. pieces.items ≡ first ∷ replicate (workers - 1) no_piece) }
{
    let mut pieces = Vec::new(alloc);
    pieces.push(first)?;
    for _worker in 1..workers {
        pieces.push(Piece::new(alloc))?;
    }
    Ok(pieces)
}

/// The pieces of all workers. That of the first one has what `first` has and then the parts of its objects.
pub(crate) fn made_pieces<R: Threads + Sync>(
    rt: &R,
    alloc: Global,
    lookups: Lookups<'_>,
    ranges: &Ranges,
    first: Piece,
) -> Result<Vec<Piece>, OutOfMemory>
    requires long { length lookups.entries.parts.now ≡ length lookups.entries.objects.now }
    requires ranges { AreRanges 63 ranges.now.cuts ranges.now.count }
    requires count { ranges.now.count ≡ length lookups.entries.objects.now }
    ensures { IfOk result (λ pieces. AreGrown lookups.entry ranges.now.cuts ranges.now.count (first ∷ replicate (length ranges.now.cuts) no_piece) pieces.items) }
{
    let workers = ranges.workers();
    let mut pieces = new_pieces(alloc, first, workers)?;
    let making = Making {
        alloc,
        lookups,
        ranges,
    };
    each_slice(rt, &making, pieces.as_mut_slice(), 0, workers);
    Ok(pieces)
}
