//! All windows are filled, piece by piece.
ghost use Rattle.std.specs.Prelude.{◌≡◌, length};
ghost use Rattle.reloc_apply.specs.Windows.{filled};
ghost use Rattle.reloc_apply.specs.Apart.{AreApart};

use crate::Pieces;
use reloc_apply::fill as fill_piece;
use std::thread::Threads;
use wl_fan::Workers;
use wl_outside::Gate;

/// Writes each window, and changes nothing else. The windows rise and don't overlap.
///
/// Those of a piece are divided among the workers, who pass the gate before each window. It takes no memory.
pub fn fill<R: Threads + Sync, G: Gate>(
    rt: &R,
    patches: &Pieces,
    out: &mut [u8],
    workers: Workers,
    gate: &G,
)
    requires { AreApart 0 (length out.old) patches.now.patches }
    ensures { out.new ≡ filled patches.now.patches out.old }
{
    let pieces = patches.as_slice();
    for piece in pieces {
        fill_piece(rt, piece, out, workers, gate);
    }
}
