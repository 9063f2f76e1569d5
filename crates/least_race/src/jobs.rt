//! The jobs of a race.
ghost use Rattle.std.specs.Prelude.{◌≡◌, ◌<◌, List, [], None, length, slice_index_or};
ghost use Rattle.least_race.specs.Jobs.{Job};

use crate::party::Offer;

/// Jobs, each a list of items, each an offer or none. The calls take no memory.
pub trait Jobs: Drop {
    /// The jobs as lists.
    ghost list: { Self → List Job };

    /// How many jobs there are.
    fn count(&self) -> u32
        ensures { result ≡ length (list self.now) };

    /// How many items a job has.
    fn items(&self, job: u32) -> u32
        requires { job < length (list self.now) }
        ensures { result ≡ length (slice_index_or (list self.now) job []) };

    /// The offer at an item of a job; `None` exactly where the item is none.
    fn offer(&self, job: u32, item: u32) -> Option<Offer>
        requires { (job < length (list self.now)) × (item < length (slice_index_or (list self.now) job [])) }
        ensures { result ≡ slice_index_or (slice_index_or (list self.now) job []) item None };
}
