//! Lines of refused links in a sink in memory, and the names of inputs from libraries' bytes.
#![tactic(auto)]

#[cfg(test)]
mod inputs;
#[cfg(test)]
mod lines;
