//! The text of a trace: a line for each thing that happened, the memory by rows of 16 bytes, the exported
//! globals, and `end`.
#![tactic(auto)]

mod digits;
mod events;
mod memory;
mod text;
mod values;

pub use text::trace_text;
