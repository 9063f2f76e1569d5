//! Whether a module is valid (Core 3), within what is linked: functions, tables, one memory, globals,
//! exports, active segments.
//!
//! The rules outside the bodies are judged over the module's index spaces (`spaces`, `rules`), then
//! each body is read once in the module's context (the crate valid_bodies), by one worker or several.
#![tactic(auto)]

mod fault;
mod rules;
mod spaces;
mod validating;

pub use fault::ValidError;
pub use validating::{context_in, validate, validate_by};
