//! All windows are filled.
ghost use Rattle.std.specs.Prelude.{◌≡◌, length};
ghost use Rattle.reloc_apply.specs.Windows.{filled};
ghost use Rattle.reloc_apply.specs.Apart.{AreApart};

use crate::Patches;
use crate::cuts::{Cuts, parts_of};
use crate::sharing::Sharing;
use std::thread::Threads;
use wl_fan::{Workers, each_slice};
use wl_outside::Gate;

/// Writes each window, and changes nothing else. The windows rise and don't overlap.
///
/// They are divided among the workers, who pass the gate before each window. It takes no memory.
/// Few windows are filled by few workers, but two windows by two, where there are so many.
pub fn fill<R: Threads + Sync, G: Gate>(
    rt: &R,
    patches: &Patches,
    out: &mut [u8],
    workers: Workers,
    gate: &G,
)
    requires { AreApart 0 (length out.old) patches.now.patches }
    ensures { out.new ≡ filled patches.now.patches out.old }
{
    let patches = patches.patches.as_slice();
    let parts = parts_of(patches.len(), workers);
    let cuts = Cuts {
        patches,
        end: out.len(),
        parts,
    };
    let sharing = Sharing { cuts, gate };
    each_slice(rt, &sharing, out, 0, parts);
}
