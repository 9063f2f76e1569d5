//! Patches in several lists that stand one behind another, so that none is copied when they are put together.
ghost use Rattle.std.specs.Prelude.{◌≡◌, ◌++◌, [], OnOk, OnErr, IfOk};
ghost use Rattle.patch_pieces.specs.Pieces.{joined};

use reloc_apply::Patches;
use std::alloc::Global;
use std::marker::Model;
use wl_base::{OutOfMemory, Seq};

/// What is written into the output, in the order of the windows. Contracts see it as one list.
#[derive(Debug, Drop)]
pub struct Pieces {
    pieces: Seq<Patches>,
}

impl Model for Pieces {
    ghost use Rattle.reloc_apply.specs.declared.window.Patches.{Patches as Written};
    ghost use Rattle.patch_pieces.specs.Pieces.{joined};

    ghost Value = { Written };

    ghost view = { λ p. joined p.pieces };
}

impl Pieces {
    /// No patch. It takes no memory.
    pub fn new(alloc: Global) -> Pieces
        ensures { result.patches ≡ [] }
    {
        Pieces {
            pieces: Seq::new(alloc),
        }
    }

    /// The patches of one piece.
    pub fn of(alloc: Global, patches: Patches) -> Result<Pieces, OutOfMemory>
        ensures { IfOk result (λ pieces. pieces ≡ patches) }
    {
        let mut pieces = Seq::new(alloc);
        pieces.push(patches)?;
        Ok(Pieces { pieces })
    }

    /// Puts the patches of a piece behind the others. Where memory is refused they stay as they were.
    pub fn push(&mut self, patches: Patches) -> Result<(), OutOfMemory>
        ensures ok { OnOk result (self.new.patches ≡ self.old.patches ++ patches.patches) }
        ensures err { OnErr result (self.new ≡ self.old) }
    {
        self.pieces.push(patches)
    }

    /// The pieces, one behind another.
    pub(crate) fn as_slice(&self) -> &[Patches]
        ensures { self.now ≡ joined result.now }
    {
        self.pieces.as_slice()
    }
}
