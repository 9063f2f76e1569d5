//! The jobs of the race for groups.
ghost use Rattle.std.specs.Prelude.{◌≡◌};
ghost use Rattle.name_entries.specs.View.{InputsRise};
ghost use Rattle.name_entries.specs.Fits.{GroupsAreNumbered};
ghost use Rattle.name_jobs.specs.Offers.{group_jobs};

use least_race::{Jobs, Offer};
use name_entries::{Names, Object};
use std::marker::Model;

/// The jobs of the race for groups. A job is an object, an item one of its groups, which offers the
/// object's input for the number of its name. Contracts see the jobs. Nothing is looked up, and no
/// call takes memory.
#[derive(Drop)]
pub struct GroupJobs<'a> {
    objects: &'a [Object],
    names: &'a Names,
}

impl<'a> Model for GroupJobs<'a> {
    ghost use Rattle.std.specs.Prelude.{◌<◌, ◌^◌, List, length};
    ghost use Rattle.least_race.specs.Jobs.{Job};
    ghost use Rattle.name_entries.specs.Fits.{GroupsAreNumbered};
    ghost use Rattle.name_jobs.specs.Offers.{group_jobs};

    ghost Value = { List Job };

    ghost view = { λ s. group_jobs s.names.now.names s.objects.now };

    ghost invariant = { λ s. (length s.objects.now < 2 ^ 31) × GroupsAreNumbered s.objects.now s.names.now };
}

impl<'a> GroupJobs<'a> {
    /// The jobs of these objects, whose inputs rise and whose groups have the numbers of their names.
    pub fn new(objects: &'a [Object], names: &'a Names) -> GroupJobs<'a>
        requires numbers { GroupsAreNumbered objects.now names.now }
        requires inputs { InputsRise 0 objects.now }
        ensures { result ≡ group_jobs names.now.names objects.now }
    {
        GroupJobs { objects, names }
    }
}

impl Jobs for GroupJobs<'_> {
    ghost list = { λ s. s };

    fn count(&self) -> u32 {
        self.objects.len() as u32
    }

    fn items(&self, job: u32) -> u32 {
        self.names.groups(job)
    }

    fn offer(&self, job: u32, item: u32) -> Option<Offer> {
        let rank = u64::from(self.objects[job as usize].input);
        let word = self.names.group(job, item)?;
        Some(Offer { word, rank })
    }
}
