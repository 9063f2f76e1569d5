//! Modules that are valid and modules that aren't, judged.
#![tactic(auto)]

#[cfg(test)]
mod bodies;
#[cfg(test)]
mod modules;
#[cfg(test)]
mod outputs;
