//! A gate that holds one job of a phase.

use crate::rendezvous::TURNS;
use std::sync::atomic::{AtomicU64, Ordering};
use wl_outside::{Gate, Phase};

/// Once some jobs of the phase have come, holds one job until so many have come, or the turns are spent.
#[derive(Drop)]
pub struct Hold {
    phase: Phase,
    after: u64,
    job: u32,
    until: u64,
    came: AtomicU64,
    // 1 where the job was held and let go, and 2 where the turns were spent
    end: AtomicU64,
}

impl Hold {
    /// A gate to which no job has come. After so many jobs of the phase it holds this job, until so many have come.
    pub fn new(phase: Phase, after: u64, job: u32, until: u64) -> Hold {
        Hold {
            phase,
            after,
            job,
            until,
            came: AtomicU64::new(0),
            end: AtomicU64::new(0),
        }
    }

    /// Whether the job was held, and let go before the turns were spent.
    pub fn let_go(&self) -> bool {
        self.end.load(Ordering::SeqCst) == 1
    }

    fn wait(&self) {
        for _ in 0..TURNS {
            if self.came.load(Ordering::SeqCst) >= self.until {
                self.end.fetch_max(1, Ordering::SeqCst);
                return;
            }
        }
        self.end.fetch_max(2, Ordering::SeqCst);
    }
}

impl Gate for Hold {
    fn turn(&self, phase: Phase, _worker: u32, job: u32) {
        if phase != self.phase {
            return;
        }
        let before = self.came.fetch_add(1, Ordering::SeqCst);
        if before >= self.after && job == self.job {
            self.wait();
        }
    }
}
