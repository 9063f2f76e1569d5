//! Where an output is cut into parts.
ghost use Rattle.std.specs.Prelude.{◌≡◌, ◌≤◌, length};
ghost use Rattle.reloc_apply.specs.Apart.{AreApart};
ghost use Rattle.reloc_apply.specs.Parts.{first_of, begins};
ghost use Rattle.reloc_apply.specs.PartLaws.{apart_prop};

use crate::Patch;
use wl_fan::Workers;

// So many windows are worth a thread: starting one costs 16 to 40 microseconds, and a window 3 to 7
// nanoseconds.
const GRAIN: usize = 65536;

/// Into how many parts the windows are cut, each for a worker. There are two wherever there are two
/// windows and two workers.
pub fn parts_of(windows: usize, workers: Workers) -> u32
    ensures range { (1 ≤ result) × (result ≤ workers) }
    ensures two { 2 ≤ windows → 2 ≤ workers → 2 ≤ result }
{
    let busy = (windows / GRAIN).max(2).min(windows).max(1);
    (busy.min(64) as u32).min(workers.count())
}

/// The windows of an output, which is cut into parts. Each part begins at its first window, so that
/// no window lies in two.
#[derive(Clone, Copy)]
pub struct Cuts<'a> {
    pub patches: &'a [Patch],
    /// The length of the output.
    pub end: usize,
    pub parts: u32,
    ghost apart: { AreApart 0 end patches.now } by { apart_prop 0 end patches.now },
    ghost some: { 1 ≤ parts },
}

impl Cuts<'_> {
    /// The number of the first window of a part.
    #[tactic(auto, using(crate::proofs::Parts::before_low))]
    pub fn first(&self, part: u32) -> usize
        ensures is { result ≡ first_of (length self.now.patches.now) self.now.parts part }
        ensures within { result ≤ length self.now.patches.now }
    {
        let windows = self.patches.len();
        let parts = self.parts as usize;
        let part = part.min(self.parts) as usize;
        part * (windows / parts) + part.min(windows % parts)
    }

    /// Where a part begins in the output.
    pub fn begin(&self, part: u32) -> usize
        ensures { result ≡ begins self.now.patches.now self.now.end self.now.parts part }
    {
        if part == 0 {
            return 0;
        }
        match self.patches.get(self.first(part)) {
            Some(patch) => patch.place as usize,
            None => self.end,
        }
    }
}
