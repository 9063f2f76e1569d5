//! The jobs of the two races, for groups and for names, and the races over them: what each group and each definition of a name offers,
//! and who wins.
#![tactic(auto)]

mod by_group;
mod by_name;
pub mod laws;
mod runs;

pub use by_group::GroupJobs;
pub use by_name::NameJobs;
pub use runs::{group_winners, name_winners};
