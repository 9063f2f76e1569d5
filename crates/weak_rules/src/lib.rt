//! The rules of names: their numbers, who wins, what symbols mean, and the least cases. Each stands in a crate of its own; this one hands
//! them on.
#![tactic(auto)]

mod inputs;

pub use inputs::inputs_rise;
pub use name_cases::{first_clash, first_duplicate, first_loose_clash};
pub use name_entries::{Entries, EntryTable, Meaning, Names, PairCase};
pub use name_jobs::{GroupJobs, NameJobs, group_winners, laws, name_winners};
pub use name_meanings::{Resolution, resolve};
pub use name_unresolved::first_unresolved;
