//! The least unresolved symbol of the live chunks.
ghost use Rattle.std.specs.Prelude.{◌≡◌, ◌==◌, length, map, slice_get, option_and_then, None, IfOk};
ghost use Rattle.std.specs.List.{find};
ghost use Rattle.name_meanings.specs.name_entries.View.{InputsRise};
ghost use Rattle.name_unresolved.specs.Refers.{refers_in, open_inits};
ghost use Rattle.name_unresolved.specs.Least.{lesser, least_by};
ghost use Rattle.name_unresolved.specs.Unresolved.{AreMeant, first_unresolved_of};
ghost use Rattle.name_unresolved.specs.Search.{IsReady, rows_of, least_open, chunk_least, number_least};

use crate::order::lesser;
use crate::piece::Piece;
use mark_bits::{Chunk, ChunkTable, MarkSet};
use name_meanings::{Object, Resolution};
use rayon::prelude::*;
use std::alloc::Global;
use std::thread::Threads;
use wl_base::{InputId, OutOfMemory, Seq};
use wl_fan::Workers;

/// How many chunks are worth threads.
const LEAST_WORK: u32 = 50_000;

/// How few chunks are worth a thread of their own, where there are threads.
const LEAST_CHUNKS: usize = 1024;

/// The objects, what their symbols mean, and the live chunks.
#[derive(Clone, Copy)]
struct Search<'a> {
    objects: &'a [Object],
    /// Their inputs, in the same order.
    inputs: &'a [InputId],
    resolution: &'a Resolution,
    live: &'a MarkSet,
    chunks: &'a ChunkTable,
}

/// The inputs of objects, in their order.
fn inputs_of(alloc: Global, objects: &[Object]) -> Result<Seq<InputId>, OutOfMemory>
    ensures { IfOk result (λ inputs. inputs ≡ map (λ o. o.input) objects.now) }
{
    let mut inputs = Seq::new(alloc);
    for object in objects {
        inputs.push(object.input)?;
    }
    Ok(inputs)
}

impl Search<'_> {
    /// Where the object of an input stands.
    fn place_of(&self, input: InputId) -> Option<usize>
        requires { IsReady self.now }
        ensures { option_and_then (slice_get self.now.objects.now) result ≡ find (λ o. o.input == input) self.now.objects.now }
    {
        self.inputs.binary_search(&input).ok()
    }

    /// The least of the open symbols that a chunk of an object names.
    fn in_object(&self, chunk: Chunk) -> Option<(InputId, u32)>
        requires { IsReady self.now }
        ensures { result ≡ least_open (rows_of self.now) (refers_in chunk (find (λ o. o.input == chunk.input) self.now.objects.now)) }
    {
        let place = self.place_of(chunk.input)?;
        let object = self.objects.get(place)?;
        let piece = Piece {
            object,
            resolution: self.resolution,
        };
        piece.in_chunk(chunk)
    }

    /// The least of the open init functions.
    #[tactic(auto, using(crate::proofs::Least::goes_on, crate::proofs::Least::ends))]
    fn in_inits(&self) -> Option<(InputId, u32)>
        requires { IsReady self.now }
        ensures { result ≡ least_by (λ o. least_open (rows_of self.now) (open_inits o)) self.now.objects.now }
    {
        let mut least = None;
        for object in self.objects {
            let piece = Piece {
                object,
                resolution: self.resolution,
            };
            least = lesser(least, piece.in_inits());
        }
        least
    }

    /// The least of the open symbols to which a chunk refers.
    fn in_chunk(&self, chunk: Chunk) -> Option<(InputId, u32)>
        requires { IsReady self.now }
        ensures { result ≡ chunk_least self.now chunk }
    {
        if chunk.input != 0 {
            self.in_object(chunk)
        } else if chunk.kind == 0 && chunk.index == 0 {
            self.in_inits()
        } else {
            None
        }
    }

    /// The same for the chunk of a number, where it is live.
    fn in_live(&self, number: u32) -> Option<(InputId, u32)>
        requires { IsReady self.now }
        ensures { result ≡ number_least self.now number }
    {
        if number < self.chunks.count() && self.live.has(number) {
            self.in_chunk(self.chunks.chunk(number))
        } else {
            None
        }
    }
}

/// The least of the open symbols to which live chunks refer, one chunk after the other.
fn least_alone(search: &Search<'_>) -> Option<(InputId, u32)>
    requires { IsReady search.now }
    ensures { result ≡ first_unresolved_of search.now.objects.now (rows_of search.now) search.now.live.now.words search.now.chunks.now }
{
    let mut least = None;
    for number in 0..search.chunks.count() {
        least = lesser(least, search.in_live(number));
    }
    least
}

/// The least of the open symbols to which live chunks refer: the chunks are looked at by several threads, and the least of what each
/// finds is taken.
fn least_by_threads<R: Threads + Sync>(rt: &R, search: &Search<'_>) -> Option<(InputId, u32)>
    requires { IsReady search.now }
    ensures { result ≡ first_unresolved_of search.now.objects.now (rows_of search.now) search.now.live.now.words search.now.chunks.now }
{
    (0..search.chunks.count())
        .into_par_iter()
        .with_min_len(LEAST_CHUNKS)
        .map(
            |number: u32| -> Option<(InputId, u32)>
                requires { IsReady search.now }
                ensures { result ≡ number_least search.entry.now number }
            { search.in_live(number) },
        )
        .reduce(
            rt,
            || -> Option<(InputId, u32)>
                ensures { result ≡ None }
            { None },
            |a: Option<(InputId, u32)>, b: Option<(InputId, u32)>| -> Option<(InputId, u32)>
                ensures { result ≡ lesser a b }
            { lesser(a, b) },
        )
}

/// The least of the open symbols to which live chunks refer, by threads where they are worth it. Where each symbol means something, as in
/// nearly all links, no chunk is looked at.
fn least_live<R: Threads + Sync>(
    rt: &R,
    search: &Search<'_>,
    workers: Workers,
) -> Option<(InputId, u32)>
    requires { IsReady search.now }
    ensures { result ≡ first_unresolved_of search.now.objects.now (rows_of search.now) search.now.live.now.words search.now.chunks.now }
{
    if search.resolution.all_mean() {
        None
    } else if workers.count() > 1 && search.chunks.count() >= LEAST_WORK {
        least_by_threads(rt, search)
    } else {
        least_alone(search)
    }
}

/// The least symbol, by input and place, to which a live chunk refers and that means nothing: it is unresolved where it is used. `None`
/// exactly where there is none. The chunk of `__wasm_call_ctors` refers to the init functions. It takes memory for a number for each object.
/// Several workers share many chunks by threads of `rayon`'s own.
pub fn first_unresolved<R: Threads + Sync>(
    rt: &R,
    alloc: Global,
    objects: &[Object],
    resolution: &Resolution,
    live: &MarkSet,
    chunks: &ChunkTable,
    workers: Workers,
) -> Result<Option<(InputId, u32)>, OutOfMemory>
    requires inputs { InputsRise 0 objects.now }
    requires meant { AreMeant resolution.now.rows objects.now }
    requires live { live.now.chunks ≡ length chunks.now }
    ensures { IfOk result (λ r. r ≡ first_unresolved_of objects.now resolution.now.rows live.now.words chunks.now) }
{
    let inputs = inputs_of(alloc, objects)?;
    let search = Search {
        objects,
        inputs: inputs.as_slice(),
        resolution,
        live,
        chunks,
    };
    Ok(least_live(rt, &search, workers))
}
