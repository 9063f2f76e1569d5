//! What is looked at in objects that were read: all that these tests ask of their names.
ghost use Rattle.name_entries.specs.made_symbols.declared.mode.Mode.TheVariants.{Plain};
ghost use Rattle.name_entries.specs.link_names.Numbered.{AreNumbers};
ghost use Rattle.name_entries.specs.View.{InputsRise};
ghost use Rattle.name_entries.specs.Fits.{Fits};

use crate::answers::{Answers, answers_of};
use crate::asked::{BothRaces, both_races};
use crate::entries::{Found, all_found};
use crate::jobs::{Won, won_by};
use crate::meanings::{Meant, meant_by};
use crate::objects::named;
use comdat_pick::ComdatWinners;
use name_entries::{Entries, EntryTable, Names, Object};
use name_jobs::group_winners;
use std::alloc::Global;
use std::thread::Threads;
use wl_fan::Workers;
use wl_outside::OpenGate;

/// What is looked at.
#[derive(Clone, Copy)]
pub enum Look {
    /// The first symbols of the object at this place.
    Symbols(u32),
    /// Which parts define their names, and the least cases.
    Answers,
    /// Who wins.
    Winners,
    /// Who wins, and how the jobs are asked.
    Asked,
    /// What symbols mean, where undefined names are allowed or not.
    Meanings(bool),
}

/// What is seen there.
#[derive(Clone, Copy)]
pub enum Seen {
    Symbols([Option<Found>; 6]),
    Answers(Answers),
    Winners(Won),
    Asked(BothRaces),
    Meanings(Meant),
}

fn what_is_seen<R: Threads + Sync>(
    rt: &R,
    alloc: Global,
    entries: Entries<'_>,
    groups: &ComdatWinners,
    workers: Workers,
    look: Look,
) -> Option<Seen>
    requires { Fits Plain entries }
{
    match look {
        Look::Symbols(object) => Some(Seen::Symbols(all_found(&entries, object))),
        Look::Answers => answers_of(rt, alloc, entries, workers).map(Seen::Answers),
        Look::Winners => won_by(rt, alloc, entries, groups, workers).map(Seen::Winners),
        Look::Asked => both_races(rt, alloc, entries, workers).map(Seen::Asked),
        Look::Meanings(allow) => meant_by(rt, alloc, entries, workers, allow).map(Seen::Meanings),
    }
}

/// The same, of objects with the numbers of their names.
fn seen_of<R: Threads + Sync>(
    rt: &R,
    alloc: Global,
    objects: &[Object],
    names: &Names,
    workers: Workers,
    look: Look,
) -> Option<Seen>
    requires inputs { InputsRise 0 objects.now }
    requires numbers { AreNumbers Plain objects.now names.now }
{
    let Ok(groups) = group_winners(rt, alloc, objects, names, workers, &OpenGate) else {
        return None;
    };
    let Ok(table) = EntryTable::new(alloc, objects, names, &groups) else {
        return None;
    };
    what_is_seen(
        rt,
        alloc,
        table.view(objects, names),
        &groups,
        workers,
        look,
    )
}

/// What is seen of these files, by so many workers.
pub fn look_at<R: Threads + Sync>(
    rt: &R,
    alloc: Global,
    files: &[&[u8]],
    workers: u32,
    look: Look,
) -> Option<Seen> {
    let workers = Workers::new(workers)?;
    let all = named(alloc, files)?;
    seen_of(rt, alloc, all.objects.as_slice(), &all.names, workers, look)
}
