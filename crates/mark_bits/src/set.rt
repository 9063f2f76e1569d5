//! A set of chunks.
ghost use Rattle.std.specs.Prelude.{◌≡◌, ◌<◌, ℕ, length, MatchBool};
ghost use Rattle.mark_bits.specs.Words.{bit_of, word_count};

use wl_base::Seq;

/// A set of chunks by their numbers. Chunk c is bit c mod 64 of word c / 64, the lowest bit being 0;
/// all other bits are clear.
#[derive(Debug, Drop)]
pub struct MarkSet {
    /// One word for each 64 chunks begun, and at least one.
    pub words: Seq<u64>,
    /// How many chunks there are, in the set or not.
    pub chunks: u32,
    ghost long: { length words ≡ word_count chunks },
    ghost low: { (c : ℕ) → bit_of words c ≡ 1 → c < chunks },
}

impl MarkSet {
    /// Whether the chunk is in the set.
    pub fn has(&self, chunk: u32) -> bool
        requires { chunk < self.now.chunks }
        ensures { MatchBool result (bit_of self.now.words chunk ≡ 1) (bit_of self.now.words chunk ≡ 0) }
    {
        self.words.as_slice()[(chunk / 64) as usize] >> (chunk % 64) & 1 == 1
    }
}
