//! A gate that counts what comes to it.

use std::sync::atomic::{AtomicU64, Ordering};
use wl_outside::{Gate, Phase};

/// Counts the jobs that come, adds up their numbers, and keeps the greatest number of a worker.
#[derive(Drop)]
pub struct Tally {
    phase: Phase,
    jobs: AtomicU64,
    sum: AtomicU64,
    worker: AtomicU64,
    // how many jobs came in another phase
    strays: AtomicU64,
}

impl Tally {
    /// A gate to which no job has come, for jobs of this phase alone.
    pub fn new(phase: Phase) -> Tally {
        Tally {
            phase,
            jobs: AtomicU64::new(0),
            sum: AtomicU64::new(0),
            worker: AtomicU64::new(0),
            strays: AtomicU64::new(0),
        }
    }

    /// How many jobs came, where all came in the right phase.
    pub fn jobs(&self) -> Option<u64> {
        if self.strays.load(Ordering::SeqCst) > 0 {
            return None;
        }
        Some(self.jobs.load(Ordering::SeqCst))
    }

    /// The sum of their numbers.
    pub fn sum(&self) -> u64 {
        self.sum.load(Ordering::SeqCst)
    }

    /// The greatest number of a worker, and 0 where none came.
    pub fn greatest_worker(&self) -> u64 {
        self.worker.load(Ordering::SeqCst)
    }
}

impl Gate for Tally {
    fn turn(&self, phase: Phase, worker: u32, job: u32) {
        if phase != self.phase {
            self.strays.fetch_add(1, Ordering::SeqCst);
        }
        self.jobs.fetch_add(1, Ordering::SeqCst);
        self.sum.fetch_add(u64::from(job), Ordering::SeqCst);
        self.worker.fetch_max(u64::from(worker), Ordering::SeqCst);
    }
}
