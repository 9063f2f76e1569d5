//! The jobs of the race for names.
ghost use Rattle.std.specs.Prelude.{◌≡◌, ◌<◌, None, Some, length, map, option_and_then, slice_index_or};
ghost use Rattle.name_entries.specs.wl_base.Names.{number_of};
ghost use Rattle.name_entries.specs.made_symbols.Made.{made};
ghost use Rattle.name_entries.specs.name_rules.Entries.{made_from};
ghost use Rattle.name_entries.specs.View.{entry_at};
ghost use Rattle.name_entries.specs.Fits.{Fits, FitsObjects};
ghost use Rattle.name_jobs.specs.Offers.{entry_offer, name_jobs};

use least_race::{Jobs, Offer};
use made_symbols::Mode;
use name_entries::{Entries, Names};
use std::marker::Model;
use symbol_race::rank;

/// The jobs of the race for names. Job 0 is the linker's own symbols, each further job is an object,
/// an item one of its symbols. A definition of its name offers its rank for the number of the name,
/// and any other symbol offers nothing. Contracts see the jobs. No call takes memory.
#[derive(Drop)]
pub struct NameJobs<'a> {
    entries: Entries<'a>,
    mode: Mode,
}

impl<'a> Model for NameJobs<'a> {
    ghost use Rattle.std.specs.Prelude.{List};
    ghost use Rattle.least_race.specs.Jobs.{Job};
    ghost use Rattle.name_entries.specs.Fits.{Fits};
    ghost use Rattle.name_jobs.specs.Offers.{name_jobs};

    ghost Value = { List Job };

    ghost view = { λ s. name_jobs s.entries.names.now.names s.mode s.entries.objects.now };

    ghost invariant = { λ s. Fits s.mode s.entries };
}

impl<'a> NameJobs<'a> {
    /// The jobs of these objects and of the linker.
    pub fn new(entries: Entries<'a>, mode: Mode) -> NameJobs<'a>
        requires { Fits mode entries }
        ensures { result ≡ name_jobs entries.entry.names.now.names mode entries.entry.objects.now }
    {
        NameJobs { entries, mode }
    }
}

impl Jobs for NameJobs<'_> {
    ghost list = { λ s. s };

    fn count(&self) -> u32 {
        self.entries.count() + 1
    }

    fn items(&self, job: u32) -> u32 {
        match job.checked_sub(1) {
            Some(object) => self.entries.symbols(object),
            None => made_symbols::count(self.mode),
        }
    }

    fn offer(&self, job: u32, item: u32) -> Option<Offer> {
        match job.checked_sub(1) {
            Some(object) => symbol_offer(&self.entries, object, item),
            None => made_offer(self.entries.names, self.mode, item),
        }
    }
}

/// What a linker-made symbol offers.
fn made_offer(names: &Names, mode: Mode, k: u32) -> Option<Offer>
    requires numbers { map Some names.now.made ≡ map (λ m. number_of names.now.names m.name) (made mode) }
    requires within { k < length (made mode) }
    ensures { result ≡ slice_index_or (map (entry_offer names.now.names) (made_from 0 (made mode))) k None }
{
    let word = names.made(k)?;
    let rank = rank(made_symbols::class(mode, k), 0, k);
    Some(Offer { word, rank })
}

/// What a symbol of an object offers.
fn symbol_offer(entries: &Entries<'_>, object: u32, place: u32) -> Option<Offer>
    requires { FitsObjects entries.now }
    ensures { result ≡ option_and_then (entry_offer entries.now.names.now.names) (entry_at entries.now.objects.now object place) }
{
    let entry = entries.entry(object, place)?;
    if !entry.defines {
        return None;
    }
    let word = entry.number?;
    let rank = rank(entry.class, entry.input, entry.place);
    Some(Offer { word, rank })
}
