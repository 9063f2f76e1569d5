//! Loading in rounds, over objects and a library of real bytes: what is loaded, in which order, and the first fault.
#![tactic(auto)]

#[cfg(test)]
mod rounds;
