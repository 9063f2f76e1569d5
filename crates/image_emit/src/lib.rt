//! The output module as a tree, and its bytes.
#![tactic(auto)]

mod emission;
pub mod fronts;
mod laws;
mod measuring;
mod parts;
pub mod piece_laws;
pub mod put;
mod put_kinds;
pub mod sizes;
mod sources;
mod splitting;
mod tree;
mod within;

pub use emission::emit;
pub use laws::{a_tree_has_a_module, bytes_are_no_other, bytes_are_the_module, entries_take_bytes};
pub use measuring::{Measured, measure};
pub use tree::{Image, PlacedSource, Source};
pub use within::lie_in;
