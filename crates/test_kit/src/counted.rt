//! Jobs of a race that watch how they are asked.
ghost use Rattle.std.specs.Prelude.{◌≡◌, IfSome};

use crate::rendezvous::Rendezvous;
use least_race::{Jobs, Offer};
use std::alloc::Global;
use std::sync::atomic::{AtomicU64, Ordering};

/// Other jobs, which it hands on. It counts how often each item is asked for, and holds the first thread that asks until an item of
/// another job is asked for, or the turns are spent.
#[derive(Drop)]
pub struct Counted<J: Jobs> {
    jobs: J,
    // of each job, how often each item was asked for
    asked: Vec<Vec<AtomicU64>>,
    // how often an item was asked for that has no counter
    missed: AtomicU64,
    threads: Rendezvous,
}

/// How jobs were asked.
#[derive(Clone, Copy, Debug, PartialEq, Eq)]
pub struct Asked {
    /// How many items were asked for exactly once.
    pub once: u64,
    /// How many items were asked for otherwise.
    pub otherwise: u64,
    /// Whether two jobs were asked at once.
    pub at_once: bool,
}

// As many counters as the job has items.
fn counters(alloc: Global, items: u32) -> Option<Vec<AtomicU64>> {
    let mut row = Vec::new(alloc);
    for _ in 0..items {
        row.push(AtomicU64::new(0)).ok()?;
    }
    Some(row)
}

// The counters of all jobs.
fn all_counters<J: Jobs>(alloc: Global, jobs: &J) -> Option<Vec<Vec<AtomicU64>>> {
    let mut rows = Vec::new(alloc);
    for job in 0..jobs.count() {
        rows.push(counters(alloc, jobs.items(job))?).ok()?;
    }
    Some(rows)
}

// How many of a job's items were asked for exactly once, if that or else.
fn asked_once(row: &[AtomicU64], once: bool) -> u64 {
    let mut count: u64 = 0;
    for asked in row {
        if (asked.load(Ordering::SeqCst) == 1) == once {
            count = count.saturating_add(1);
        }
    }
    count
}

impl<J: Jobs> Counted<J> {
    /// These jobs, none of which was asked.
    pub fn new(alloc: Global, jobs: J) -> Option<Counted<J>>
        ensures { IfSome result (λ c. J.list c.jobs ≡ J.list jobs) }
    {
        let asked = all_counters(alloc, &jobs)?;
        Some(Counted {
            jobs,
            asked,
            missed: AtomicU64::new(0),
            threads: Rendezvous::new(),
        })
    }

    /// How the jobs were asked so far.
    pub fn asked(&self) -> Asked {
        let mut once: u64 = 0;
        let mut otherwise = self.missed.load(Ordering::SeqCst);
        for row in &self.asked {
            once = once.saturating_add(asked_once(row, true));
            otherwise = otherwise.saturating_add(asked_once(row, false));
        }
        Asked {
            once,
            otherwise,
            at_once: self.threads.was_met(),
        }
    }

    fn count_item(&self, job: u32, item: u32) {
        let counter = match self.asked.get(job as usize) {
            Some(row) => match row.get(item as usize) {
                Some(counter) => counter,
                None => &self.missed,
            },
            None => &self.missed,
        };
        counter.fetch_add(1, Ordering::SeqCst);
    }
}

impl<J: Jobs> Jobs for &Counted<J> {
    ghost list = { λ c. J.list c.now.jobs };

    fn count(&self) -> u32 {
        self.jobs.count()
    }

    fn items(&self, job: u32) -> u32 {
        self.jobs.items(job)
    }

    fn offer(&self, job: u32, item: u32) -> Option<Offer> {
        self.count_item(job, item);
        self.threads.come(job);
        self.jobs.offer(job, item)
    }
}
