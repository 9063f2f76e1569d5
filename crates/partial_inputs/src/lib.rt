//! What a partial link takes: plain objects, by a plan of which no option has a further effect.
#![tactic(auto)]

mod bare;
pub mod laws;
mod plain;

pub use bare::bare_plan;
pub use plain::refused_inputs;
