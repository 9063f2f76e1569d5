//! Runs of modules: a module as a world, and how a run of it begins (Core 4.5.4). Each part has the clause
//! that it is what `run_rules` defines of the module; `module_world` puts them together.
#![tactic(auto)]

mod cells;
mod clones;
mod fits;
mod functions;
mod imported;
mod keys;
pub mod laws;
mod opcodes;
mod ops;
mod starts;
mod world;

pub use cells::first_value;
pub use fits::first_outside;
pub use starts::write_bytes;
pub use world::{ModuleWorld, module_world};
