//! A function that is called by another type than its definition has.

use wasm_types::FuncType;
use wl_base::{InputId, Name};

/// A function that is called by another type than its definition has.
#[derive(Debug, Drop)]
pub struct Mismatch {
    pub name: Name,
    /// The type by which it is called.
    pub called: FuncType,
    /// The first input that calls it so.
    pub input: InputId,
    /// The type of its definition.
    pub defined: FuncType,
    /// The input of the definition; 0 is the linker itself.
    pub definer: InputId,
}
