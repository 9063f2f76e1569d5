//! Whether the output of a link is valid (Core 3), where its plan asks for that.
//!
//! All of the output but its bodies is read once (`module_front`). Its bodies are then read and judged one by one
//! (`bodies`), by several workers (`sharing`), and the answers put together (`checking`).
#![tactic(auto)]

mod bodies;
mod checking;
mod sharing;

pub use checking::check_output;
pub use wasm_valid::ValidError;
