//! The race over all jobs.
ghost use Rattle.std.specs.Prelude.{◌≡◌, ℕ, ◌<◌, ◌^◌, None, length, slice_index_or, IfOk};
ghost use Rattle.least_race.specs.Jobs.{WordsBelow};
ghost use Rattle.race_share.specs.Offered.{IsLeastOffer};
ghost use Rattle.symbol_race.specs.Ranks.{RanksMade};

use least_race::Jobs;
use race_share::{Leasts, least_ranks};
use std::alloc::Global;
use std::marker::Model;
use std::thread::Threads;
use wl_base::OutOfMemory;
use wl_fan::Workers;
use wl_outside::{Gate, Phase};

/// For each name the least rank that was offered, or none. `race` alone makes it.
#[derive(Debug, Drop)]
pub struct Winners {
    leasts: Leasts,
}

impl Model for Winners {
    ghost use Rattle.std.specs.Prelude.{List, ℕ};
    ghost use Rattle.std.specs.declared.option.Option.{Option};

    ghost Value = { List (Option ℕ) };

    ghost view = { λ w. w.leasts };
}

impl Winners {
    /// The least rank that was offered for the name; `None` exactly where none was.
    pub fn of(&self, name: u32) -> Option<u64>
        ensures { result ≡ slice_index_or self.now name None }
    {
        self.leasts.of(name)
    }
}

/// Workers race for the `names` names. Of each name the least rank wins that the jobs offer. Each
/// offer is asked for once, by the worker that claimed its job, which passes the gate before.
pub fn race<J: Jobs + Sync, G: Gate, R: Threads + Sync>(
    rt: &R,
    alloc: Global,
    jobs: J,
    names: u32,
    workers: Workers,
    gate: &G,
) -> Result<Winners, OutOfMemory>
    requires jobs { length (J.list jobs) < 2 ^ 31 }
    requires words { WordsBelow names (J.list jobs) }
    requires ranks { RanksMade (J.list jobs) }
    ensures { IfOk result (λ winners. (name : ℕ) → IsLeastOffer (J.list jobs) name (slice_index_or winners name None)) }
{
    let leasts = least_ranks(rt, alloc, Phase::Names, jobs, names, workers, gate)?;
    Ok(Winners { leasts })
}
