//! Calls by drivers' words over shelves and sinks in memory.
#![tactic(auto)]

#[cfg(test)]
mod calls;
#[cfg(test)]
mod sections;
