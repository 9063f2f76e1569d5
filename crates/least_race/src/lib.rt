//! A race for the least rank of each word. Seats draw jobs and offer ranks, each by one atomic
//! step, and whatever the order of these steps, each word ends as the least rank offered for it.
//! Nothing waits, and only `LeastRace::new` takes memory.
#![tactic(auto)]

mod jobs;
pub mod laws;
mod list_jobs;
mod party;
mod race;
mod rule;

pub use jobs::Jobs;
pub use list_jobs::ListJobs;
pub use party::{Offer, Party};
pub use race::{LeastRace, RaceSeat};
