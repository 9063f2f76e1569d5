//! The race over all jobs.
ghost use Rattle.std.specs.Prelude.{◌≡◌, ℕ, ◌<◌, ◌^◌, None, length, slice_index_or, IfOk};
ghost use Rattle.least_race.specs.Jobs.{WordsBelow};
ghost use Rattle.race_share.specs.Offered.{RanksBelow, IsLeastOffer};

use least_race::Jobs;
use race_share::{Leasts, least_ranks};
use std::alloc::Global;
use std::marker::Model;
use std::thread::Threads;
use wl_base::{InputId, OutOfMemory};
use wl_fan::Workers;
use wl_outside::{Gate, Phase};

/// For each group the least input that was offered, or none. `pick` alone makes it.
#[derive(Debug, Drop)]
pub struct ComdatWinners {
    leasts: Leasts,
}

impl Model for ComdatWinners {
    ghost use Rattle.std.specs.Prelude.{◌<◌, ◌^◌, List, ℕ, None, slice_index_or, IfSome};
    ghost use Rattle.std.specs.declared.option.Option.{Option};

    ghost Value = { List (Option ℕ) };

    ghost view = { λ w. w.leasts };

    ghost invariant = { λ w. (i : ℕ) → IfSome (slice_index_or w.leasts i None) (λ n. n < 2 ^ 20) };
}

impl ComdatWinners {
    /// The least input that was offered for the group; `None` exactly where none was.
    pub fn of(&self, group: u32) -> Option<InputId>
        ensures { result ≡ slice_index_or self.now group None }
    {
        match self.leasts.of(group) {
            Some(input) => Some(input as u32),
            None => None,
        }
    }
}

/// Workers race for the `names` groups. Of each group the least input wins that the jobs offer as a
/// rank. Each offer is asked for once, by the worker that claimed its job, which passes the gate
/// before.
#[tactic(auto, using(crate::proofs::Inputs::inputs_below, crate::proofs::Inputs::least_below))]
pub fn pick<J: Jobs + Sync, G: Gate, R: Threads + Sync>(
    rt: &R,
    alloc: Global,
    jobs: J,
    names: u32,
    workers: Workers,
    gate: &G,
) -> Result<ComdatWinners, OutOfMemory>
    requires jobs { length (J.list jobs) < 2 ^ 31 }
    requires words { WordsBelow names (J.list jobs) }
    requires inputs { RanksBelow (2 ^ 20) (J.list jobs) }
    ensures { IfOk result (λ winners. (group : ℕ) → IsLeastOffer (J.list jobs) group (slice_index_or winners group None)) }
{
    let leasts = least_ranks(rt, alloc, Phase::Groups, jobs, names, workers, gate)?;
    Ok(ComdatWinners { leasts })
}
