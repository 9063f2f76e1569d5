//! What is found of the loaded objects, and what is told of functions that are called by another type than their definition has.
ghost use Rattle.std.specs.Prelude.{◌≡◌, [], IfOk};
ghost use Rattle.link_output.specs.link_program.link_plan.Plan.{IsPlan};
ghost use Rattle.link_output.specs.link_program.link_rules.ModeOf.{mode_of};
ghost use Rattle.link_output.specs.link_program.link_rules.Program as rules;
ghost use Rattle.link_output.specs.link_program.link_rules.Program.{program_of};
ghost use Rattle.link_output.specs.link_program.Loaded.{IsLoaded, Origin};
ghost use Rattle.mismatch_rules.specs.Mismatches.{standing};
ghost use Rattle.called_variants.specs.Called.{calls_if, told_of};
ghost use Rattle.program_build.specs.Found.{Finds, IsFound};
ghost use Rattle.link_core.specs.Telling.{Tells};

use called_variants::called_only;
use link_output::{Home, LinkError, Object};
use link_plan::Plan;
use lost_ctors::mode_of;
use mismatch_rules::Mismatch;
use program_build::{Found, find, mismatches};
use std::alloc::Global;
use std::thread::Threads;
use wl_base::{OutOfMemory, Seq};
use wl_fan::Workers;
use wl_outside::Gate;

/// What is told of calls in what was found. Only where there are variants, symbols and what parts name are looked at once more.
fn mismatches_in(
    alloc: Global,
    plan: &Plan,
    objects: &[Object],
    found: &Found,
) -> Result<Seq<Mismatch>, OutOfMemory>
    ghost p: { rules.Program }
    requires { IsFound (mode_of plan.now) plan.now objects.now found.now p }
    ensures { IfOk result (λ told. told ≡ calls_if p.plan.loose_calls p) }
{
    if !plan.loose_calls {
        return Ok(Seq::new(alloc));
    }
    if found.tables.variants.is_empty() {
        return Ok(Seq::new(alloc));
    }
    let all = mismatches(alloc, found.view(objects), &found.resolution, mode_of(plan))?;
    let told = called_only(alloc, &found.tables, &found.names, all)?;
    Ok(told)
}

/// The same as [`find`], and beside it what is told of calls.
pub(crate) fn find_telling<G: Gate, R: Threads + Sync>(
    rt: &R,
    alloc: Global,
    plan: &Plan,
    objects: &[Object],
    homes: &[Home],
    workers: Workers,
    gate: &G,
    told: &mut Seq<Mismatch>,
) -> Result<Found, LinkError>
    ghost origin: { Origin }
    requires plan { IsPlan plan.now }
    requires same { origin.plan ≡ plan.now }
    requires loaded { IsLoaded origin.files origin.all objects.now homes.now }
    ensures found { Finds (mode_of plan.now) result plan.now objects.now (program_of (mode_of plan.now) plan.now origin.files origin.all objects.now) }
    ensures told { told.old ≡ [] → Tells result told.new (told_of (standing (program_of (mode_of plan.now) plan.now origin.files origin.all objects.now))) }
{
    let found = find(rt, alloc, plan, objects, homes, workers, gate)?;
    *told = mismatches_in(alloc, plan, objects, &found)?;
    Ok(found)
}
