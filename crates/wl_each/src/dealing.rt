//! A list that is dealt to workers: each has as many items, and the last one those that are left over too.
ghost use Rattle.std.specs.Prelude.{◌≡◌, ◌*◌, ◌≤◌, ◌<◌};
ghost use Rattle.wl_each.specs.Items.{begin_at};

use crate::Each;
use wl_fan::{Slices, Workers};

/// So many items are worth a thread: starting one costs 15 to 40 microseconds, and an item some 10 nanoseconds, more where it misses the cache.
const GRAIN: usize = 1 << 14;

/// Into how many parts so many items are cut.
pub(crate) fn parts_of(count: usize, workers: Workers) -> u32
    ensures { (1 ≤ result) × (result ≤ 64) }
{
    let worth = (count / GRAIN).min(64) as u32;
    worth.min(workers.count()).max(1)
}

/// Items in parts.
#[derive(Drop)]
pub(crate) struct Dealing<'a, E> {
    pub(crate) each: &'a E,
    pub(crate) share: usize,
    pub(crate) parts: u32,
    pub(crate) count: usize,
    ghost fits: { parts * share ≤ count },
}

impl<E> Dealing<'_, E> {
    /// Where a part begins; behind the last part is the end.
    pub(crate) fn begin(&self, part: u32) -> usize
        ensures { result ≡ begin_at self.now.share self.now.parts self.now.count part }
    {
        if part < self.parts {
            part as usize * self.share
        } else {
            self.count
        }
    }
}

impl<T: Copy + Send, E: Each<T>> Slices<T> for Dealing<'_, E> {
    ghost use Rattle.std.specs.Prelude.{◌≡◌, length};
    ghost use Rattle.wl_each.specs.Items.{begin_at, items_from};
    ghost use Rattle.wl_each.specs.Dealt.{begins_rise};

    ghost begins = { λ s part. begin_at s.share s.parts s.count part };

    ghost worked = { λ s part old new. new ≡ items_from (E.value s.each.now) (begin_at s.share s.parts s.count part) (length old) };

    ghost rises = { λ s p q le below. begins_rise s.share s.parts s.count p q s.fits le };

    fn cut(&self, part: u32) -> usize {
        self.begin(part)
    }

    fn work(&self, part: u32, items: &mut [T]) {
        let from = self.begin(part);
        for at in 0..items.len() {
            items[at] = self.each.item(from + at);
        }
    }
}
