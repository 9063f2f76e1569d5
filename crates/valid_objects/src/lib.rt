//! Whether an object is valid: its bodies have a typing, and its globals' first values their types.
//!
//! An object's instructions name things by relocations, so its indices say nothing: a call has the
//! type of its function symbol, a `global.get` that of its global symbol, or is the address of a
//! function or datum. All else is as in a module: the same shapes, the same typing, the same reading
//! (the crates valid_rules and valid_bodies).
//!
//! A body is read once, beside its references: both rise, so what stands at an instruction's immediate
//! is the first of the references that are left (`references`). What it names is looked up by its
//! number (`names`, `meanings`).
#![tactic(auto)]

mod bodies;
mod meanings;
mod names;
mod references;
mod validating;

pub use validating::validate_object;
pub use wasm_valid::ValidError;
