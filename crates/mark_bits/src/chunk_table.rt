//! The numbers of chunks.
ghost use Rattle.std.specs.Prelude.{◌≡◌, ℕ, ◌+◌, ◌-◌, ◌∷◌, ◌++◌, [], ◌<◌, ◌^◌, length, slice_get, Some, IfOk, IfSome, IfNone, OnErr};
ghost use Rattle.mark_bits.specs.Chunks.{Lacks};

use crate::Chunk;
use indexmap::IndexSet;
use std::alloc::Global;
use std::marker::Model;
use wl_base::OutOfMemory;

/// Chunks with their numbers, from 0 in the order in which they were added. Contracts see the list of
/// the chunks. All calls take constant time.
#[derive(Drop)]
pub struct ChunkTable {
    chunks: IndexSet<Chunk>,
}

impl Model for ChunkTable {
    ghost use Rattle.std.specs.Prelude.{List, ◌<◌, ◌^◌, length};
    ghost use Rattle.mark_bits.specs.declared.chunk.Chunk.{Chunk};
    ghost use Rattle.mark_bits.specs.Chunks.{Differ};

    ghost Value = { List Chunk };

    ghost view = { λ t. t.chunks.keys };

    ghost invariant = { λ t. (length t.chunks.keys < 2 ^ 32) × Differ t.chunks.keys };
}

impl ChunkTable {
    /// No chunks. It takes no memory.
    pub fn new(alloc: Global) -> ChunkTable
        ensures { result ≡ [] }
    {
        ChunkTable {
            chunks: IndexSet::new(alloc),
        }
    }

    /// Gives the chunk, which isn't held, the next number. Where memory is refused the table is as before.
    pub fn add(&mut self, c: Chunk) -> Result<u32, OutOfMemory>
        requires room { length self.old < 2 ^ 32 - 1 }
        requires new { Lacks self.old c }
        ensures ok { IfOk result (λ n. (n ≡ length self.old) × (self.new ≡ self.old ++ c ∷ [])) }
        ensures err { OnErr result (self.new ≡ self.old) }
    {
        let (number, _) = self.chunks.insert_full(c)?;
        Ok(number as u32)
    }

    /// The number of the chunk, which is its only one; `None` exactly where the chunk isn't held.
    pub fn find(&self, c: Chunk) -> Option<u32>
        ensures some { IfSome result (λ n. slice_get self.now n ≡ Some c) }
        ensures only { IfSome result (λ n. (k : ℕ) → slice_get self.now k ≡ Some c → k ≡ n) }
        ensures none { IfNone result (Lacks self.now c) }
    {
        Some(self.chunks.get_index_of(&c)? as u32)
    }

    /// How many chunks there are.
    pub fn count(&self) -> u32
        ensures { result ≡ length self.now }
    {
        self.chunks.len() as u32
    }

    /// The chunk of a number that was given.
    pub fn chunk(&self, k: u32) -> Chunk
        requires { k < length self.now }
        ensures { slice_get self.now k ≡ Some result }
    {
        self.chunks.as_slice()[k as usize]
    }
}
