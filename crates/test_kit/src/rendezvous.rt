//! Where two threads have to meet.

use std::sync::atomic::{AtomicU64, Ordering};

/// For how many turns a thread is held at most.
pub const TURNS: u64 = 100_000_000;

/// Holds the thread that comes first, with a number, until one comes with another number, or the turns are spent.
#[derive(Drop)]
pub struct Rendezvous {
    // one more than the first number, and 0 before that
    first: AtomicU64,
    // 1 from when another number came
    other: AtomicU64,
    // 1 where the turns were spent
    late: AtomicU64,
}

impl Rendezvous {
    pub fn new() -> Rendezvous {
        Rendezvous {
            first: AtomicU64::new(0),
            other: AtomicU64::new(0),
            late: AtomicU64::new(0),
        }
    }

    /// Whether another number came while the first one was held.
    pub fn was_met(&self) -> bool {
        self.other.load(Ordering::SeqCst) == 1 && self.late.load(Ordering::SeqCst) == 0
    }

    /// Comes with this number.
    pub fn come(&self, number: u32) {
        let number = u64::from(number) + 1;
        match self
            .first
            .compare_exchange(0, number, Ordering::SeqCst, Ordering::SeqCst)
        {
            Ok(_) => self.wait(),
            Err(first) => {
                if first != number {
                    self.other.store(1, Ordering::SeqCst);
                }
            }
        }
    }

    fn wait(&self) {
        for _ in 0..TURNS {
            if self.other.load(Ordering::SeqCst) > 0 {
                return;
            }
        }
        self.late.store(1, Ordering::SeqCst);
    }
}
