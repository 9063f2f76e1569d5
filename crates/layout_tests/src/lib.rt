//! Tests. Where segments, slots, types and numbers come to stand, and what is written into windows.
#![tactic(auto)]

#[cfg(test)]
mod apart;
#[cfg(test)]
mod constructors;
#[cfg(test)]
mod indices;
#[cfg(test)]
mod memory;
#[cfg(test)]
mod patches;
#[cfg(test)]
mod pieces;
#[cfg(test)]
mod table;
#[cfg(test)]
mod types;
#[cfg(test)]
mod written;
