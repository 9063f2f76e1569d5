//! The races for names and for groups on real threads, which only tests can show: that workers work
//! at once, and that each offer is asked for once, by the worker that claimed its job.
#![tactic(auto)]

#[cfg(test)]
mod grid_jobs;
#[cfg(test)]
mod least;
#[cfg(test)]
mod races;
#[cfg(test)]
mod ranks;
