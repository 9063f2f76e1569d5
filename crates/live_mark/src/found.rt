//! The chunks that a share marks first.
ghost use Rattle.std.specs.Prelude.{◌≡◌, false, [], ◌∷◌, ◌++◌, IfOk};

use std::alloc::Global;
use wl_base::OutOfMemory;

/// The chunks that were marked first, as long as no memory was refused. The marking itself can't fail, so
/// a refusal is kept until the round is over.
#[derive(Drop)]
pub struct Found {
    pub chunks: Vec<u32>,
    pub refused: bool,
}

impl Found {
    /// Nothing. It takes no memory.
    pub fn new(alloc: Global) -> Found
        ensures { (result.chunks.items ≡ []) × (result.refused ≡ false) }
    {
        Found {
            chunks: Vec::new(alloc),
            refused: false,
        }
    }

    /// Adds a chunk.
    pub fn note(&mut self, chunk: u32)
        ensures still { self.new.refused ≡ false → self.old.refused ≡ false }
        ensures noted { self.new.refused ≡ false → self.new.chunks.items ≡ self.old.chunks.items ++ chunk ∷ [] }
    {
        if self.chunks.push(chunk).is_err() {
            self.refused = true;
        }
    }

    /// Adds the chunks of another.
    pub fn append(&mut self, other: Found)
        ensures still { self.new.refused ≡ false → (self.old.refused ≡ false) × (other.refused ≡ false) }
        ensures noted { self.new.refused ≡ false → self.new.chunks.items ≡ self.old.chunks.items ++ other.chunks.items }
    {
        if other.refused
            || self
                .chunks
                .extend_from_slice(other.chunks.as_slice())
                .is_err()
        {
            self.refused = true;
        }
    }

    /// The chunks, where no memory was refused.
    pub fn into_chunks(self) -> Result<Vec<u32>, OutOfMemory>
        ensures { IfOk result (λ v. (self.refused ≡ false) × (v.items ≡ self.chunks.items)) }
    {
        if self.refused {
            return Err(OutOfMemory);
        }
        let Found { chunks, refused: _ } = self;
        Ok(chunks)
    }
}
