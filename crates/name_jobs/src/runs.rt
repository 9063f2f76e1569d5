//! The two races over these jobs.
ghost use Rattle.std.specs.Prelude.{length, IfOk, bytes_eq};
ghost use Rattle.std.specs.List.{IsDistinct};
ghost use Rattle.name_entries.specs.name_rules.Entries.{entries as all_entries};
ghost use Rattle.name_entries.specs.View.{GroupsAre, InputsRise, NonePast, WinnersAre};
ghost use Rattle.name_entries.specs.Fits.{Fits, GroupsAreNumbered};

use crate::by_group::GroupJobs;
use crate::by_name::NameJobs;
use comdat_pick::{ComdatWinners, pick};
use made_symbols::Mode;
use name_entries::{Entries, Names, Object};
use std::alloc::Global;
use std::thread::Threads;
use symbol_race::{Winners, race};
use wl_base::OutOfMemory;
use wl_fan::Workers;
use wl_outside::Gate;

/// The winner of each group, by the number of its name, whatever the order in which the workers
/// race. The inputs of the objects rise, and the groups have the numbers of their names.
pub fn group_winners<G: Gate, R: Threads + Sync>(
    rt: &R,
    alloc: Global,
    objects: &[Object],
    names: &Names,
    workers: Workers,
    gate: &G,
) -> Result<ComdatWinners, OutOfMemory>
    requires differ { IsDistinct bytes_eq names.now.names }
    requires numbers { GroupsAreNumbered objects.now names.now }
    requires inputs { InputsRise 0 objects.now }
    ensures { IfOk result (λ winners. GroupsAre names.now.names objects.now winners) }
{
    let jobs = GroupJobs::new(objects, names);
    let winners = pick(rt, alloc, jobs, names.count(), workers, gate)?;
    Ok(winners)
}

/// The rank of the winner of each name, by the number of the name, whatever the order in which the
/// workers race.
pub fn name_winners<G: Gate, R: Threads + Sync>(
    rt: &R,
    alloc: Global,
    entries: Entries<'_>,
    mode: Mode,
    workers: Workers,
    gate: &G,
) -> Result<Winners, OutOfMemory>
    requires { Fits mode entries }
    ensures won { IfOk result (λ winners. WinnersAre entries.entry.names.now.names (all_entries mode entries.entry.objects.now) winners) }
    // Behind the numbers of names there is none.
    ensures past { IfOk result (NonePast (length entries.entry.names.now.names)) }
{
    let names = entries.names.count();
    let jobs = NameJobs::new(entries, mode);
    let winners = race(rt, alloc, jobs, names, workers, gate)?;
    Ok(winners)
}
