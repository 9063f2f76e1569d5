//! Jobs of equal length.
ghost use Rattle.std.specs.Prelude.{◌≤◌};

use least_race::{Jobs, Offer};

/// So many jobs of so many items, each item an offer for word 0 of its job's number and 4 as the rank.
#[derive(Drop)]
pub struct GridJobs {
    jobs: u32,
    items: u32,
    ghost few: { jobs ≤ 64 },
}

impl GridJobs {
    pub fn new(jobs: u32, items: u32) -> GridJobs
        requires { jobs ≤ 64 }
    {
        GridJobs { jobs, items }
    }
}

impl Jobs for GridJobs {
    ghost use Rattle.race_tests.specs.Grid.{grid};

    ghost list = { λ g. grid g.jobs g.items };

    fn count(&self) -> u32 {
        self.jobs
    }

    fn items(&self, _job: u32) -> u32 {
        self.items
    }

    fn offer(&self, job: u32, _item: u32) -> Option<Offer> {
        Some(Offer {
            word: 0,
            rank: u64::from(job) + 4,
        })
    }
}
