//! The sources of windows, one behind another: the bodies of functions, then the live segments.
ghost use Rattle.std.specs.Prelude.{◌≡◌, ◌++◌, false, map, filter, drop, slice_index_or, IfOk, OnOk};
ghost use Rattle.link_program.specs.Moved.{moved_window, moved_windows};
ghost use Rattle.link_layout.specs.Seen.{body_number};
ghost use Rattle.link_layout.specs.Rows.{row_windows, part_windows, moved_sources};
ghost use Rattle.link_layout.specs.Sources.{no_key, windows_of};
ghost use Rattle.link_layout.specs.Layout.{looked};

use crate::{Layout, Placed};
use link_program::{FunctionKey, Tables, chunk_number, row_at};
use mark_bits::{Chunk, ChunkTable, kinds as chunk_kinds};
use std::alloc::Global;
use std::thread::Threads;
use wl_base::OutOfMemory;
use wl_each::{Each, each_item};
use wl_fan::Workers;

/// A part whose windows are written.
#[derive(Clone, Copy)]
pub(crate) struct Source {
    /// Where it stands in the output.
    pub(crate) place: u64,
    /// The number of the part.
    pub(crate) number: u32,
}

/// The number of the part that has the body of a function. What the linker makes has its numbers already.
fn body_number(chunks: &ChunkTable, key: FunctionKey) -> Option<u32>
    ensures { result ≡ body_number chunks.now key }
{
    match key {
        FunctionKey::Own { input, index } if input != 0 => chunk_number(
            chunks,
            Chunk {
                input,
                kind: chunk_kinds::FUNCTION,
                index,
            },
        ),
        _ => None,
    }
}

/// The key at a place.
#[tactic(auto, using(link_program::proofs::ReadAt::read))]
fn key_at(keys: &[FunctionKey], at: usize) -> FunctionKey
    ensures { result ≡ slice_index_or keys.now at no_key }
{
    match keys.get(at) {
        Some(key) => *key,
        None => FunctionKey::Import(0),
    }
}

/// Functions whose bodies are looked up.
#[derive(Drop)]
struct Bodies<'a> {
    chunks: &'a ChunkTable,
    keys: &'a [FunctionKey],
}

impl Each<Option<u32>> for Bodies<'_> {
    ghost use Rattle.std.specs.Prelude.{slice_index_or};
    ghost use Rattle.link_layout.specs.Seen.{body_number};
    ghost use Rattle.link_layout.specs.Sources.{no_key};

    ghost value = { λ s at. body_number s.chunks.now (slice_index_or s.keys.now at no_key) };

    fn item(&self, at: usize) -> Option<u32> {
        body_number(self.chunks, key_at(self.keys, at))
    }
}

/// The numbers of the parts that have the bodies of functions, by the workers.
fn body_numbers<R: Threads + Sync>(
    rt: &R,
    alloc: Global,
    chunks: &ChunkTable,
    keys: &[FunctionKey],
    workers: Workers,
) -> Result<Vec<Option<u32>>, OutOfMemory>
    ensures { IfOk result (λ numbers. numbers.items ≡ map (body_number chunks.now) keys.now) }
{
    let bodies = Bodies { chunks, keys };
    let numbers = each_item(rt, alloc, &bodies, keys.len(), None, workers)?;
    Ok(numbers)
}

/// Puts a part at a place behind the others, if there is one.
fn add_part(
    sources: &mut Vec<Source>,
    layout: Layout<'_>,
    part: Option<u32>,
    place: u64,
) -> Result<(), OutOfMemory>
    ensures { OnOk result (windows_of (looked layout.entry) sources.new.items ≡ windows_of (looked layout.entry) sources.old.items ++ map (moved_window place) (part_windows (looked layout.entry) part)) }
{
    let Some(number) = part else {
        return Ok(());
    };
    sources.push(Source { place, number })?;
    Ok(())
}

/// Puts parts behind the others, each at its place.
fn add_parts(
    sources: &mut Vec<Source>,
    layout: Layout<'_>,
    numbers: &[Option<u32>],
    places: &[u64],
) -> Result<(), OutOfMemory>
    ensures { OnOk result (windows_of (looked layout.entry) sources.new.items ≡ windows_of (looked layout.entry) sources.old.items ++ moved_windows places.now (map (part_windows (looked layout.entry)) numbers.now)) }
{
    for (i, number) in numbers.iter().enumerate() {
        if let Some(place) = places.get(i) {
            add_part(sources, layout, *number, *place)?;
        }
    }
    Ok(())
}

/// Whether the part of a number is a live segment that isn't zero.
#[tactic(auto, using(link_program::proofs::ReadAt::read))]
fn is_solid_at(placed: &Placed, number: u32) -> bool
    ensures { result ≡ slice_index_or placed.now.solid number false }
{
    match placed.solid.get(number as usize) {
        Some(solid) => *solid,
        None => false,
    }
}

/// The numbers of the live segments that aren't zero.
fn solid_numbers(alloc: Global, placed: &Placed, live: &[u32]) -> Result<Vec<u32>, OutOfMemory>
    ensures { IfOk result (λ numbers. numbers.items ≡ filter (λ n. slice_index_or placed.now.solid n false) live.now) }
{
    let mut numbers = Vec::new(alloc);
    for number in live {
        if is_solid_at(placed, *number) {
            numbers.push(*number)?;
        }
    }
    Ok(numbers)
}

/// Puts segments behind the others, each at its place.
fn add_segments(
    sources: &mut Vec<Source>,
    layout: Layout<'_>,
    numbers: &[u32],
    places: &[u64],
) -> Result<(), OutOfMemory>
    ensures { OnOk result (windows_of (looked layout.entry) sources.new.items ≡ windows_of (looked layout.entry) sources.old.items ++ moved_windows places.now (map (row_windows (looked layout.entry)) numbers.now)) }
{
    for (i, number) in numbers.iter().enumerate() {
        if let Some(place) = places.get(i) {
            sources.push(Source {
                place: *place,
                number: *number,
            })?;
        }
    }
    Ok(())
}

/// All sources of the output, each at its place.
pub(crate) fn sources_of<R: Threads + Sync>(
    rt: &R,
    alloc: Global,
    layout: Layout<'_>,
    live: &[u32],
    places: &[u64],
    workers: Workers,
) -> Result<Vec<Source>, OutOfMemory>
    ensures { IfOk result (λ sources. windows_of (looked layout.entry) sources.items ≡ moved_sources (looked layout.entry) live.now places.now) }
{
    let numbering = layout.numbering;
    let keys = keys_behind(numbering.functions(), numbering.imported());
    let bodies = body_numbers(rt, alloc, &layout.program.tables.chunks, keys, workers)?;
    let segments = solid_numbers(alloc, layout.placed, live)?;
    let mut sources = Vec::with_capacity(alloc, keys.len().saturating_add(segments.len()))?;
    add_parts(&mut sources, layout, &bodies, places)?;
    add_segments(
        &mut sources,
        layout,
        &segments,
        places_behind(places, keys.len()),
    )?;
    Ok(sources)
}

/// The keys behind so many.
#[tactic(auto, using(crate::proofs::Fewer::dropped_less))]
fn keys_behind(keys: &[FunctionKey], count: usize) -> &[FunctionKey]
    ensures { result.now ≡ drop count keys.now }
{
    &keys[count.min(keys.len())..]
}

/// The places behind so many.
#[tactic(auto, using(crate::proofs::Fewer::dropped_less))]
fn places_behind(places: &[u64], count: usize) -> &[u64]
    ensures { result.now ≡ drop count places.now }
{
    &places[count.min(places.len())..]
}

/// How many windows the sources have, as far as a number holds it.
pub(crate) fn count_windows(tables: &Tables, sources: &[Source]) -> usize {
    let mut count = 0usize;
    for source in sources {
        count = count.saturating_add(row_at(tables, source.number).len());
    }
    count
}
