//! Jobs that are lists.
ghost use Rattle.std.specs.Prelude.{◌≡◌, ◌<◌, ◌^◌, map, length, All};
ghost use Rattle.least_race.specs.Jobs.{all_some};

use crate::jobs::Jobs;
use crate::party::Offer;
use std::marker::Model;
use wl_base::Seq;

/// Jobs in memory, each a list of offers.
#[derive(Debug, Drop)]
pub struct ListJobs {
    jobs: Seq<Seq<Offer>>,
}

impl Model for ListJobs {
    ghost use Rattle.std.specs.Prelude.{List, map, ◌<◌, ◌^◌, length, All};
    ghost use Rattle.least_race.specs.Jobs.{Job, all_some};

    ghost Value = { List Job };

    ghost view = { λ s. map all_some s.jobs };

    ghost invariant = { λ s. (length s.jobs < 2 ^ 32) × All (λ r. length r < 2 ^ 32) s.jobs };
}

impl ListJobs {
    /// The jobs with these offers.
    pub fn new(jobs: Seq<Seq<Offer>>) -> ListJobs
        requires few { length jobs < 2 ^ 32 }
        requires short { All (λ r. length r < 2 ^ 32) jobs }
        ensures { result ≡ map all_some jobs }
    {
        ListJobs { jobs }
    }
}

impl Jobs for ListJobs {
    ghost list = { λ s. s };

    fn count(&self) -> u32 {
        self.jobs.len() as u32
    }

    fn items(&self, job: u32) -> u32 {
        self.jobs.as_slice()[job as usize].len() as u32
    }

    fn offer(&self, job: u32, item: u32) -> Option<Offer> {
        Some(self.jobs.as_slice()[job as usize].as_slice()[item as usize])
    }
}
