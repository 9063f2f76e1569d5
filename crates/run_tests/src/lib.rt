//! Tests of the crates that run modules: stacks, the words and scripts of `wasmrun` and the texts of traces; each call
//! once with memory there.
#![tactic(auto)]

#[cfg(test)]
mod scripts;
#[cfg(test)]
mod stacks;
#[cfg(test)]
mod texts;
#[cfg(test)]
mod words;
