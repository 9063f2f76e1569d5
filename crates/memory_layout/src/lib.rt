//! Where segments, the stack and the heap stand in memory.
#![tactic(auto)]

mod laws;
mod placing;
mod rules;

pub use laws::{segments_stand_in_order, the_next_multiple};
pub use placing::place;
pub use rules::{MemoryRules, Places, SegmentShape};
