//! What is read of an object before its rules are looked at, and the rules, each broken by itself.
#![tactic(auto)]

#[cfg(test)]
mod parts;
#[cfg(test)]
mod rules;
