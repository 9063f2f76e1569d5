//! The image of the output: each section by the numbers and places of what is live.
#![tactic(auto)]

mod bodies;
mod elements;
mod exported;
mod functions;
mod imports;
mod made_globals;
mod making;
mod memory;
mod passing;
mod placed;
mod shared;
#[cfg(test)]
mod tests;
mod types;

pub use link_layout::{Layout, number, place_segments};
pub use making::image;
