//! Shares of work that are split, worked on threads and put together again.
ghost use Rattle.std.specs.Prelude.{◌≡◌, ℕ, ◌+◌, ◌-◌, ◌^◌, ◌<◌, ◌≤◌, Bool, true, false};
ghost use Rattle.std.specs.Thread.{IsSync};

use std::thread::{Threads, join_mut};

/// A part of some work, for the workers of a range of numbers. Each number is one worker's, and its
/// part is worked once: `work` asks that the share isn't done, and leaves it done.
pub trait Share: Send + Sized {
    /// The first number.
    ghost start: { Self → ℕ };

    /// How many numbers there are.
    ghost breadth: { Self → ℕ };

    /// Whether the work is done.
    ghost is_done: { Self → Bool };

    /// Whether two shares belong to one and the same work.
    ghost belongs: { Self → Self → Type 0 };

    /// Cuts the last numbers off, so many as `width` says, as a share of their own.
    fn split(&mut self, width: u32) -> Self
        requires { (is_done self.old ≡ false) × (1 ≤ width) × (width < breadth self.old) }
        ensures open { (is_done self.new ≡ false) × (is_done result ≡ false) }
        ensures place { (start self.new ≡ start self.old) × (start result ≡ start self.new + breadth self.new) }
        ensures width { (breadth result ≡ width) × (breadth self.new + width ≡ breadth self.old) }
        ensures kept { belongs self.old self.new × belongs self.old result };

    /// Takes in the share of the numbers that follow; both are done.
    fn take_back(&mut self, part: Self)
        requires { (is_done self.old ≡ true) × (is_done part ≡ true) × belongs self.old part × (start part ≡ start self.old + breadth self.old) }
        ensures done { is_done self.new ≡ true }
        ensures place { start self.new ≡ start self.old }
        ensures width { breadth self.new ≡ breadth self.old + breadth part }
        ensures kept { belongs self.old self.new };

    /// Does the work of a share of one number, as the worker of this number.
    fn work(&mut self, worker: u32)
        requires { (is_done self.old ≡ false) × (breadth self.old ≡ 1) × (worker ≡ start self.old) }
        ensures done { is_done self.new ≡ true }
        ensures place { (start self.new ≡ start self.old) × (breadth self.new ≡ breadth self.old) }
        ensures kept { belongs self.old self.new };

    /// Belonging together is an equivalence.
    ghost belongs_self: { (x : Self) → belongs x x };

    ghost belongs_back: { (x y : Self) → belongs x y → belongs y x };

    ghost belongs_on: { (x y z : Self) → belongs x y → belongs y z → belongs x z };
}

/// Does the work of a share that has the `width` numbers from `first` on: halves it down to shares
/// of one number, has each worked once, as the worker of its number, and takes all back. The halves
/// are worked on two threads; where none can be started, the caller's thread works both.
#[cycle(halves)]
pub fn each_half<R: Threads + Sync, S: Share>(rt: &R, share: &mut S, first: u32, width: u32)
    requires share { (S.is_done share.old ≡ false) × (S.start share.old ≡ first) × (S.breadth share.old ≡ width) }
    requires width { (1 ≤ width) × (first + width < 2 ^ 32) }
    ensures done { S.is_done share.new ≡ true }
    ensures place { (S.start share.new ≡ first) × (S.breadth share.new ≡ width) }
    ensures kept { S.belongs share.old share.new }
{
    if width == 1 {
        share.work(first);
        return;
    }
    let right = width / 2;
    let left = width - right;
    let middle = first + left;
    let mut part = share.split(right);
    both(rt, share, &mut part, first, left, middle, right);
    share.take_back(part);
}

// Works two shares at once.
#[cycle(halves)]
fn both<R: Threads + Sync, S: Share>(
    rt: &R,
    share: &mut S,
    part: &mut S,
    first: u32,
    left: u32,
    middle: u32,
    right: u32,
)
    requires share { (S.is_done share.old ≡ false) × (S.start share.old ≡ first) × (S.breadth share.old ≡ left) }
    requires part { (S.is_done part.old ≡ false) × (S.start part.old ≡ middle) × (S.breadth part.old ≡ right) }
    requires width { (1 ≤ left) × (1 ≤ right) × (first + left < 2 ^ 32) × (middle + right < 2 ^ 32) }
    ensures done { (S.is_done share.new ≡ true) × (S.is_done part.new ≡ true) }
    ensures place { (S.start share.new ≡ first) × (S.breadth share.new ≡ left) × (S.start part.new ≡ middle) × (S.breadth part.new ≡ right) }
    ensures kept { S.belongs share.old share.new × S.belongs part.old part.new }
{
    join_mut(
        rt,
        &mut ||
            requires { IsSync R.row × (S.is_done share.now ≡ false) × (S.start share.now ≡ first) × (S.breadth share.now ≡ left) × (1 ≤ left) × (first + left < 2 ^ 32) }
            ensures { (S.is_done share.exit.now ≡ true) × (S.start share.exit.now ≡ first) × (S.breadth share.exit.now ≡ left) × S.belongs share.entry.now share.exit.now }
        { each_half(rt, share, first, left) },
        &mut ||
            requires { IsSync R.row × (S.is_done part.now ≡ false) × (S.start part.now ≡ middle) × (S.breadth part.now ≡ right) × (1 ≤ right) × (middle + right < 2 ^ 32) }
            ensures { (S.is_done part.exit.now ≡ true) × (S.start part.exit.now ≡ middle) × (S.breadth part.exit.now ≡ right) × S.belongs part.entry.now part.exit.now }
        { each_half(rt, part, middle, right) },
    );
}
