//! Lists of which each item is computed by itself, by several workers.
#![tactic(auto)]

mod dealing;
mod items;
#[cfg(test)]
mod tests;

pub use items::{Each, each_item};
