//! The least rank of each word.
ghost use Rattle.std.specs.Prelude.{◌≡◌, None, slice_index_or};

use std::marker::Model;
use wl_base::Seq;

/// For each word the least rank that was offered, or none. `least_ranks` alone makes it.
#[derive(Debug, Drop)]
pub struct Leasts {
    // 2^64 - 1 where nothing was offered
    pub(crate) words: Seq<u64>,
}

impl Model for Leasts {
    ghost use Rattle.std.specs.Prelude.{List, ℕ, map};
    ghost use Rattle.std.specs.declared.option.Option.{Option};
    ghost use Rattle.race_share.specs.Offered.{offered};

    ghost Value = { List (Option ℕ) };

    ghost view = { λ s. map offered s.words };
}

impl Leasts {
    /// The least rank that was offered for the word; `None` exactly where none was.
    #[tactic(auto, using(crate::proofs::Answered::of_top, crate::proofs::Answered::of_rank, crate::proofs::Answered::of_none))]
    pub fn of(&self, word: u32) -> Option<u64>
        ensures { result ≡ slice_index_or self.now word None }
    {
        self.words
            .get(word as usize)
            .copied()
            .filter(|&rank| rank != u64::MAX)
    }
}
