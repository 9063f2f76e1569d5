//! A race of workers for the least rank of each word: the shares that they work, and the race over
//! all jobs. The races for names and for groups are this one with their own ranks.
#![tactic(auto)]

mod leasts;
mod offers;
mod runs;
mod share;

pub use leasts::Leasts;
pub use runs::least_ranks;
