//! What is found of the loaded objects, in order: the numbers of names, the winners of groups and of names, the least clash and the least
//! duplicate, what symbols mean, and the tables of parts.
ghost use Rattle.std.specs.Prelude.{◌≡◌, IfOk};
ghost use Rattle.loose_calls.specs.link_program.link_plan.Plan.{IsPlan};
ghost use Rattle.loose_calls.specs.link_program.link_rules.ModeOf.{mode_of};
ghost use Rattle.loose_calls.specs.link_program.link_rules.Program.{program_of};
ghost use Rattle.loose_calls.specs.link_program.Loaded.{IsLoaded, Origin};
ghost use Rattle.program_build.specs.Steps.{AreMeant};
ghost use Rattle.program_build.specs.Found.{Finds, IsFound};

use crate::found::Found;
use crate::meanings::{Meanings, meanings_of};
use crate::numbers::numbers_of;
use link_plan::Plan;
use loose_calls::{EntryTable, Home, LinkError, Names, Object, loosened, mode_of, tables_of};
use name_jobs::group_winners;
use std::alloc::Global;
use std::thread::Threads;
use wl_base::OutOfMemory;
use wl_fan::Workers;
use wl_outside::Gate;

/// What is found of the loaded objects by what their names mean. Variants get names behind all others.
fn found_by<R: Threads + Sync>(
    rt: &R,
    alloc: Global,
    plan: &Plan,
    objects: &[Object],
    homes: &[Home],
    mut names: Names,
    entries: EntryTable,
    meanings: Meanings,
    workers: Workers,
) -> Result<Found, OutOfMemory>
    ghost origin: { Origin }
    requires same { origin.plan ≡ plan.now }
    requires loaded { IsLoaded origin.files origin.all objects.now homes.now }
    requires meant { AreMeant (mode_of plan.now) origin objects.now names entries meanings }
    ensures { IfOk result (λ found. IsFound (mode_of plan.now) plan.now objects.now found
        (program_of (mode_of plan.now) plan.now origin.files origin.all objects.now)) }
{
    let mode = mode_of(plan);
    let Meanings { ranks, resolution } = meanings;
    let loose = loosened(
        alloc,
        &mut names,
        &entries,
        objects,
        &resolution,
        plan.loose_calls,
        mode,
    )?;
    let view = entries.view(objects, &names);
    let tables = tables_of(
        rt,
        alloc,
        view,
        &ranks,
        &resolution,
        homes,
        &loose,
        mode,
        workers,
    )?;
    Ok(Found {
        names,
        entries,
        ranks,
        resolution,
        tables,
    })
}

/// What the loaded objects are as a program: the numbers of their names, who wins each name, what each symbol means, and the tables of
/// their symbols, parts and references, for the output that the plan asks for. `homes` has where the bytes of each candidate stand.
///
/// It is `Refused` by the first of these faults: there are more than 2^24 different names; two entries of one name clash; a name has two
/// strong definitions. The races for groups and names are the gate's phases `Groups` and `Names`, by these workers;
/// what is answered doesn't depend on their number. `origin` has the files and the candidates, by which the program is defined.
pub fn find<G: Gate, R: Threads + Sync>(
    rt: &R,
    alloc: Global,
    plan: &Plan,
    objects: &[Object],
    homes: &[Home],
    workers: Workers,
    gate: &G,
) -> Result<Found, LinkError>
    ghost origin: { Origin }
    requires plan { IsPlan plan.now }
    requires same { origin.plan ≡ plan.now }
    requires loaded { IsLoaded origin.files origin.all objects.now homes.now }
    ensures { Finds (mode_of plan.now) result plan.now objects.now (program_of (mode_of plan.now) plan.now origin.files origin.all objects.now) }
{
    let mode = mode_of(plan);
    let names = numbers_of(alloc, plan, objects, mode)?;
    let groups = group_winners(rt, alloc, objects, &names, workers, gate)?;
    let entries = EntryTable::by_workers(rt, alloc, objects, &names, &groups, workers)?;
    let view = entries.view(objects, &names);
    let meanings = meanings_of(rt, alloc, plan, view, mode, workers, gate)?;
    let found = found_by(
        rt, alloc, plan, objects, homes, names, entries, meanings, workers,
    )?;
    Ok(found)
}
