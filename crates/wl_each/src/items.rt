//! A list of which each item is computed by itself: by the workers, where there are many items.
ghost use Rattle.std.specs.Prelude.{◌≡◌, ℕ, IfOk};
ghost use Rattle.wl_each.specs.Items.{items_from};

use crate::dealing::{Dealing, parts_of};
use std::alloc::Global;
use std::thread::Threads;
use wl_base::OutOfMemory;
use wl_fan::{Workers, each_slice};

/// How each item of a list is computed.
pub trait Each<T>: Sync {
    /// The item at a place.
    ghost value: { Self → ℕ → T };

    /// The item at a place. It is asked below the length alone, each place once.
    fn item(&self, at: usize) -> T
        ensures { result ≡ value self.now at };
}

/// So many items, each computed by itself: by the workers where there are many, each a range of them. `blank` stands there before, and in no answer.
pub fn each_item<R: Threads + Sync, T: Copy + Send, E: Each<T>>(
    rt: &R,
    alloc: Global,
    each: &E,
    count: usize,
    blank: T,
    workers: Workers,
) -> Result<Vec<T>, OutOfMemory>
    ensures { IfOk result (λ made. made.items ≡ items_from (E.value each.now) 0 count) }
{
    let mut items = vec![in alloc; blank; count]?;
    let parts = parts_of(count, workers);
    let dealing = Dealing {
        each,
        share: count / parts as usize,
        parts,
        count,
    };
    each_slice(rt, &dealing, items.as_mut_slice(), 0, parts);
    Ok(items)
}
