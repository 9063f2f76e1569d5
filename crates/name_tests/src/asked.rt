//! How the real jobs are asked in both races, by workers at once.
ghost use Rattle.name_entries.specs.made_symbols.declared.mode.Mode.TheVariants.{Plain};
ghost use Rattle.name_entries.specs.link_names.Numbered.{AreNumbers};
ghost use Rattle.name_entries.specs.View.{InputsRise};
ghost use Rattle.name_entries.specs.Fits.{Fits};

use crate::jobs::{winner_of_group, winner_of_name};
use crate::looking::{Look, Seen, look_at};
use crate::objects::{grouped, strong, weak};
use comdat_pick::pick;
use made_symbols::Mode;
use name_entries::{Entries, Names, Object};
use name_jobs::{GroupJobs, NameJobs};
use std::alloc::Global;
use std::thread::Threads;
use symbol_race::{race, rank};
use test_kit::{Asked, Counted};
use wl_fan::Workers;
use wl_outside::OpenGate;

/// The race for groups over the real jobs: who has `g`, and how the jobs were asked.
fn groups_asked<R: Threads + Sync>(
    rt: &R,
    alloc: Global,
    objects: &[Object],
    names: &Names,
    workers: Workers,
) -> Option<(Option<u32>, Asked)>
    requires inputs { InputsRise 0 objects.now }
    requires numbers { AreNumbers Plain objects.now names.now }
{
    let jobs = Counted::new(alloc, GroupJobs::new(objects, names))?;
    let winners = pick(rt, alloc, &jobs, names.count(), workers, &OpenGate).ok()?;
    Some((winner_of_group(names, &winners), jobs.asked()))
}

/// The race for names over the real jobs: the rank of the definition of `f`, and how the jobs were asked.
fn names_asked<R: Threads + Sync>(
    rt: &R,
    alloc: Global,
    entries: Entries<'_>,
    workers: Workers,
) -> Option<(Option<u64>, Asked)>
    requires { Fits Plain entries }
{
    let names = entries.names;
    let jobs = Counted::new(alloc, NameJobs::new(entries, Mode::Plain))?;
    let winners = race(rt, alloc, &jobs, names.count(), workers, &OpenGate).ok()?;
    Some((winner_of_name(names, &winners), jobs.asked()))
}

/// Who won, and how the jobs were asked.
#[derive(Clone, Copy, PartialEq, Eq)]
pub struct BothRaces {
    group: Option<u32>,
    groups: Asked,
    name: Option<u64>,
    names: Asked,
}

/// Both races.
pub fn both_races<R: Threads + Sync>(
    rt: &R,
    alloc: Global,
    entries: Entries<'_>,
    workers: Workers,
) -> Option<BothRaces>
    requires { Fits Plain entries }
{
    let (group, groups) = groups_asked(rt, alloc, entries.objects, entries.names, workers)?;
    let (name, names) = names_asked(rt, alloc, entries, workers)?;
    Some(BothRaces {
        group,
        groups,
        name,
        names,
    })
}

/// What both races answer over six objects.
fn wanted() -> BothRaces {
    let made = u64::from(made_symbols::count(Mode::Plain));
    BothRaces {
        group: Some(2),
        groups: Asked {
            once: 3,
            otherwise: 0,
            at_once: true,
        },
        name: Some(rank(0, 2, 0)),
        names: Asked {
            once: made + 6,
            otherwise: 0,
            at_once: true,
        },
    }
}

/// Whether each offer is asked for once, by so many workers at once.
fn is_asked_once<R: Threads + Sync>(rt: &R, alloc: Global, files: &[&[u8]], workers: u32) -> bool {
    match look_at(rt, alloc, files, workers, Look::Asked) {
        Some(Seen::Asked(races)) => races == wanted(),
        _ => false,
    }
}

#[test]
fn each_offer_is_asked_for_once_by_workers_at_once(rt: HostRuntime) {
    let files = [weak(), grouped(), grouped(), strong(), grouped(), strong()];
    assert!(rt; is_asked_once(&rt, rt.alloc(), &files, 2));
    assert!(rt; is_asked_once(&rt, rt.alloc(), &files, 64));
}
