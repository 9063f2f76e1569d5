//! Where data segments stand, and what the windows of the output hold.
#![tactic(auto)]

mod cells;
mod columns;
mod gathering;
mod held;
mod keys;
mod patches;
mod placing;
mod segments;
mod sharing;
mod usual;
mod values;

pub use cells::made_import;
pub use link_numbers::{Numbering, number};
pub use placing::{Placed, place_segments};
pub use values::Layout;
