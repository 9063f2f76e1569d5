//! Objects that are valid and objects that aren't, judged.
#![tactic(auto)]

#[cfg(test)]
mod objects;
