//! A list that is cut into parts, which threads work at once.
ghost use Rattle.std.specs.Prelude.{◌≡◌, ℕ, ◌+◌, ◌-◌, ◌^◌, ◌<◌, ◌≤◌, List, length};
ghost use Rattle.std.specs.Thread.{IsSync};
ghost use Rattle.wl_fan.specs.Slices.{Works};

use std::thread::{Threads, join_mut};

/// How a list is cut into parts, and what is done to each.
pub trait Slices<T>: Sync {
    /// Where a part begins.
    ghost begins: { Self → ℕ → ℕ };

    /// What the work on a part tells of its items before and after. Their number stays.
    ghost worked: { Self → ℕ → List T → List T → Type 0 };

    /// Where a part begins.
    fn cut(&self, part: u32) -> usize
        ensures { result ≡ begins self.now part };

    /// Works a part. Its items are those from its cut to the next one.
    fn work(&self, part: u32, items: &mut [T])
        requires { (part + 1 < 2 ^ 32) × (length items.old ≡ begins self.now (part + 1) - begins self.now part) }
        ensures { worked self.now part items.old items.new };

    /// Cuts never fall with the part.
    ghost rises: { (s : Self) (p q : ℕ) → p ≤ q → q < 2 ^ 32 → begins s p ≤ begins s q };
}

/// Works each of the `width` parts from `first` on once, under its own number. The items are those
/// of these parts. They are halved, and the halves worked on two threads; where none can be started,
/// the caller's thread works both.
#[cycle(slices)]
pub fn each_slice<R: Threads + Sync, T: Send, W: Slices<T>>(
    rt: &R,
    work: &W,
    items: &mut [T],
    first: u32,
    width: u32,
)
    requires width { (1 ≤ width) × (first + width < 2 ^ 32) }
    requires items { length items.old ≡ W.begins work.now (first + width) - W.begins work.now first }
    ensures { Works (W.worked work.now) (W.begins work.now) first width items.old items.new }
{
    if width == 1 {
        work.work(first, items);
        return;
    }
    let right = width / 2;
    let left = width - right;
    let middle = first + left;
    let at = work.cut(middle) - work.cut(first);
    let (front, back) = items.split_at_mut(at);
    work_both(rt, work, front, back, first, left, middle, right);
}

// Works the parts of two lists at once.
#[cycle(slices)]
fn work_both<R: Threads + Sync, T: Send, W: Slices<T>>(
    rt: &R,
    work: &W,
    front: &mut [T],
    back: &mut [T],
    first: u32,
    left: u32,
    middle: u32,
    right: u32,
)
    requires width { (1 ≤ left) × (first + left ≡ middle) × (1 ≤ right) × (middle + right < 2 ^ 32) }
    requires items { (length front.old ≡ W.begins work.now middle - W.begins work.now first) × (length back.old ≡ W.begins work.now (middle + right) - W.begins work.now middle) }
    ensures front { Works (W.worked work.now) (W.begins work.now) first left front.old front.new }
    ensures back { Works (W.worked work.now) (W.begins work.now) middle right back.old back.new }
{
    join_mut(
        rt,
        &mut ||
            requires { IsSync R.row × IsSync W.row × (1 ≤ left) × (first + left < 2 ^ 32) × (length front.now ≡ W.begins work.now (first + left) - W.begins work.now first) }
            ensures { Works (W.worked work.entry.now) (W.begins work.entry.now) first left front.entry.now front.exit.now }
        { each_slice(rt, work, front, first, left) },
        &mut ||
            requires { IsSync R.row × IsSync W.row × (1 ≤ right) × (middle + right < 2 ^ 32) × (length back.now ≡ W.begins work.now (middle + right) - W.begins work.now middle) }
            ensures { Works (W.worked work.entry.now) (W.begins work.entry.now) middle right back.entry.now back.exit.now }
        { each_slice(rt, work, back, middle, right) },
    );
}
