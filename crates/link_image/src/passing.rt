//! Live functions of objects, passed in the order of their parts. Their numbers in the output have the same order, so the part of each is found where
//! that of the one before it was, without a hash.
ghost use Rattle.std.specs.Prelude.{◌≡◌, slice_get, Some, IsTrue};
ghost use Rattle.link_program.specs.Look.{chunk_number};
ghost use Rattle.link_program.specs.Program.{ChunksDiffer};

use link_program::{Tables, chunk_number, part_at};
use mark_bits::{Chunk, ChunkTable, kinds as chunk_kinds};

// Whether a chunk is a function of an object.
fn is_function(chunk: Chunk) -> bool {
    chunk.kind == chunk_kinds::FUNCTION && chunk.input != 0
}

// Whether the chunk of a number is this one.
fn has_number(chunks: &ChunkTable, number: u32, chunk: Chunk) -> bool
    ensures { IsTrue result → slice_get chunks.now number ≡ Some chunk }
{
    number < chunks.count() && chunks.chunk(number) == chunk
}

// The number of a chunk, which is likely to be this one.
#[tactic(auto, using(crate::proofs::Near::has_it))]
fn number_near(chunks: &ChunkTable, likely: u32, chunk: Chunk) -> Option<u32>
    requires { ChunksDiffer chunks.now }
    ensures { result ≡ chunk_number chunks.now chunk }
{
    if has_number(chunks, likely, chunk) {
        Some(likely)
    } else {
        chunk_number(chunks, chunk)
    }
}

/// The numbers of the live parts that weren't passed yet.
#[derive(Drop)]
pub(crate) struct Passing<'a> {
    live: &'a [u32],
}

impl<'a> Passing<'a> {
    /// All of them, by rising number.
    pub(crate) fn new(live: &'a [u32]) -> Passing<'a> {
        Passing { live }
    }

    // Passes the next function of an object, and says its number; a number that no part has, where there is none.
    fn next(&mut self, tables: &Tables) -> u32 {
        while let [number, left @ ..] = self.live {
            self.live = left;
            if is_function(part_at(tables, *number).chunk) {
                return *number;
            }
        }
        u32::MAX
    }

    /// The number of the part that is a function of an object. It is found quickly where this is the next one.
    pub(crate) fn number(&mut self, tables: &Tables, chunk: Chunk) -> Option<u32>
        requires { ChunksDiffer tables.now.chunks }
        ensures { result ≡ chunk_number tables.now.chunks chunk }
    {
        let likely = self.next(tables);
        number_near(&tables.chunks, likely, chunk)
    }
}
