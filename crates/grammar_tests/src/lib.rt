//! Bytes, numbers, types, sections, instructions and relocations, read and written: what is told of spelled bytes, and the first fault of others.
#![tactic(auto)]

#[cfg(test)]
mod grammar;
#[cfg(test)]
mod instructions;
#[cfg(test)]
mod relocations;
#[cfg(test)]
mod sections;
#[cfg(test)]
mod text;
#[cfg(test)]
mod types;
