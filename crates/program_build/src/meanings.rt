//! Who wins each name, and what each symbol means.
ghost use Rattle.std.specs.Prelude.{◌≡◌};
ghost use Rattle.loose_calls.specs.link_program.name_entries.Fits.{Fits};
ghost use Rattle.loose_calls.specs.link_program.Loaded.{Origin};
ghost use Rattle.program_build.specs.Steps.{MeansOrRefused};

use crate::cases::refuse_cases;
use link_plan::Plan;
use loose_calls::{Entries, LinkError, Resolution, resolve};
use made_symbols::Mode;
use name_jobs::name_winners;
use std::alloc::Global;
use std::thread::Threads;
use symbol_race::Winners;
use wl_fan::Workers;
use wl_outside::Gate;

/// What is found by a view of the objects.
#[derive(Drop)]
pub(crate) struct Meanings {
    pub(crate) ranks: Winners,
    pub(crate) resolution: Resolution,
}

/// What is found by a view of the loaded objects, unless it is refused.
pub(crate) fn meanings_of<G: Gate, R: Threads + Sync>(
    rt: &R,
    alloc: Global,
    plan: &Plan,
    view: Entries<'_>,
    mode: Mode,
    workers: Workers,
    gate: &G,
) -> Result<Meanings, LinkError>
    ghost origin: { Origin }
    requires same { origin.plan ≡ plan.now }
    requires fits { Fits mode view }
    ensures { MeansOrRefused mode result origin view.entry.objects.now view.entry.names.now.names }
{
    let ranks = name_winners(rt, alloc, view, mode, workers, gate)?;
    refuse_cases(rt, alloc, view, plan.loose_calls, mode, workers)?;
    let resolution = resolve(alloc, view, &ranks, plan.allow_undefined, mode)?;
    Ok(Meanings { ranks, resolution })
}
