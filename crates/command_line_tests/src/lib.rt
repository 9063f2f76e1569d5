//! Runs of the whole command over shelves and sinks in memory.
#![tactic(auto)]

#[cfg(test)]
mod checks;
#[cfg(test)]
mod gates;
#[cfg(test)]
mod runs;
#[cfg(test)]
mod sections;
