//! The kept parts and what they name.
ghost use Rattle.std.specs.Prelude.{◌≡◌, ◌-◌, ◌<◌, ◌^◌, length, map, IfOk};
ghost use Rattle.link_program.specs.mark_bits.Chunks.{Differ};
ghost use Rattle.link_program.specs.name_entries.Fits.{FitsObjects};
ghost use Rattle.program_tables.specs.Rows.{all_rows};
ghost use Rattle.program_tables.specs.Gains.{AreAll};
ghost use Rattle.wl_rows.specs.Ranges.{AreRanges};

use crate::inits::init_calls;
use crate::joining::{Joined, are_whole, put_together};
use crate::making::made_pieces;
use crate::pieces::Piece;
use crate::view::Lookups;
use link_program::{Mode, Named, Object, Part};
use mark_bits::ChunkTable;
use std::alloc::Global;
use std::thread::Threads;
use wl_base::{OutOfMemory, Seq};
use wl_fan::Workers;
use wl_lists::shrunk;
use wl_rows::{Ranges, Rows};

/// So many parts, which name some 20 symbols each, are worth a thread: starting one costs 15 to 40 microseconds.
const GRAIN: usize = 1 << 12;

/// Parts, and by part what it names and its chunk.
#[derive(Drop)]
pub(crate) struct AllParts {
    pub(crate) parts: Seq<Part>,
    pub(crate) named: Rows<Named>,
    pub(crate) chunks: ChunkTable,
}

/// How many parts an object has at most, but for its globals, which are few.
fn parts_in(from: &Object) -> usize {
    from.functions.len().saturating_add(from.segments.len())
}

/// How many parts objects have at most, but for their globals, as far as a number holds it.
fn count_parts(objects: &[Object]) -> usize {
    let mut parts = 0usize;
    for from in objects {
        parts = parts.saturating_add(parts_in(from));
    }
    parts
}

/// How many parts a worker has at least, where there are so many workers.
fn share_of(objects: &[Object], workers: usize) -> usize {
    if workers <= 1 {
        return 0;
    }
    (count_parts(objects) / workers).max(GRAIN)
}

/// The objects of each worker. One worker has all of them where they have few parts.
fn ranges_for(alloc: Global, objects: &[Object], workers: Workers) -> Result<Ranges, OutOfMemory>
    ensures ranges { IfOk result (λ r. AreRanges 63 r.cuts r.count) }
    ensures count { IfOk result (λ r. r.count ≡ length objects.now) }
{
    let workers = workers.count() as usize;
    let share = share_of(objects, workers);
    let mut ranges = Ranges::new(alloc);
    for from in objects {
        ranges.add(parts_in(from), share, workers - 1)?;
    }
    Ok(ranges)
}

/// The chunk of each part, which no other part has.
fn chunks_of(alloc: Global, parts: &[Part]) -> Result<ChunkTable, OutOfMemory>
    requires { Differ (map (λ part. part.chunk) parts.now) }
    ensures chunks { IfOk result (λ chunks. chunks ≡ map (λ part. part.chunk) parts.now) }
    ensures few { IfOk result (λ chunks. length chunks < 2 ^ 32 - 1) }
{
    if parts.len() >= u32::MAX as usize {
        return Err(OutOfMemory);
    }
    let mut chunks = ChunkTable::new(alloc);
    for part in parts {
        chunks.add(part.chunk)?;
    }
    Ok(chunks)
}

/// The kept parts of all objects: the linker's own by number, then those of each object. They are made by the workers, where there are many.
pub(crate) fn all_parts<R: Threads + Sync>(
    rt: &R,
    alloc: Global,
    lookups: Lookups<'_>,
    mode: Mode,
    workers: Workers,
) -> Result<AllParts, OutOfMemory>
    requires { FitsObjects lookups.entries }
    ensures parts { IfOk result (AreAll (all_rows mode lookups.entry)) }
    ensures few { IfOk result (λ all. length all.chunks < 2 ^ 32 - 1) }
    ensures differ { IfOk result (λ all. Differ all.chunks) }
{
    let calls = init_calls(alloc, lookups)?;
    let made = Piece::of_made(alloc, mode, calls.as_slice())?;
    let ranges = ranges_for(alloc, lookups.entries.objects, workers)?;
    let pieces = made_pieces(rt, alloc, lookups, &ranges, made)?;
    if !are_whole(&pieces) {
        return Err(OutOfMemory);
    }
    let Joined { parts, named } = put_together(alloc, pieces)?;
    let chunks = chunks_of(alloc, parts.as_slice())?;
    Ok(AllParts {
        parts: shrunk(parts),
        named,
        chunks,
    })
}
