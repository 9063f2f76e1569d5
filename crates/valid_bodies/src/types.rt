//! What the instructions of a body may name.

use wasm_types::{FuncType, GlobalType};
use wl_base::Seq;

/// What a body may name: the parts of a context (Core 3.1.1) that the linked instructions look at.
#[derive(Drop)]
pub struct Context {
    /// The types of functions.
    pub types: Seq<FuncType>,
    /// Of each function, imported ones first, the index of its type.
    pub functions: Seq<u32>,
    /// Of each table whether it is of funcref.
    pub tables: Seq<bool>,
    /// Whether there is a memory.
    pub memory: bool,
    /// The types of globals, imported ones first.
    pub globals: Seq<GlobalType>,
}

/// What an instruction's index names in its context.
#[derive(Drop)]
pub enum Meaning {
    /// Nothing that is there, or the instruction has no index that typing looks up.
    Nothing,
    /// A function or block of this type.
    OfType(FuncType),
    /// A global of this type.
    OfGlobal(GlobalType),
}
