//! A gate at which two workers have to meet.

use crate::rendezvous::Rendezvous;
use std::sync::atomic::{AtomicU64, Ordering};
use wl_outside::{Gate, Phase};

/// Holds the first worker that comes until a second one has come, or the turns are spent, and counts the jobs that pass.
#[derive(Drop)]
pub struct Meeting {
    phase: Phase,
    workers: Rendezvous,
    passed: AtomicU64,
    // how many jobs came in another phase
    strays: AtomicU64,
}

impl Meeting {
    /// A gate to which no worker has come, for jobs of this phase alone.
    pub fn new(phase: Phase) -> Meeting {
        Meeting {
            phase,
            workers: Rendezvous::new(),
            passed: AtomicU64::new(0),
            strays: AtomicU64::new(0),
        }
    }

    /// How many jobs passed.
    pub fn passed(&self) -> u64 {
        self.passed.load(Ordering::SeqCst)
    }

    /// Whether a second worker came while the first one was held, and all in the right phase.
    pub fn was_met(&self) -> bool {
        self.workers.was_met() && self.strays.load(Ordering::SeqCst) == 0
    }
}

impl Gate for Meeting {
    fn turn(&self, phase: Phase, worker: u32, _job: u32) {
        self.passed.fetch_add(1, Ordering::SeqCst);
        if phase != self.phase {
            self.strays.fetch_add(1, Ordering::SeqCst);
        }
        self.workers.come(worker);
    }
}
