//! Modules whose exports are wrapped.
#![tactic(auto)]

#[cfg(test)]
mod modules;
