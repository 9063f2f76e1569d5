//! What an object is made of, kept as columns: each kind of record in a few pieces of memory, whatever
//! their number. Contracts see the lists of the records.
#![tactic(auto)]

mod flags;
mod func_types;
mod functions;
mod imports;
mod name;
mod segments;
mod short_span;
mod symbols;

pub use func_types::{FuncTypeRef, FuncTypes};
pub use functions::{FunctionDef, FunctionRef, Functions};
pub use imports::{ImportRef, Imports};
pub use segments::{SegmentDef, SegmentRef, Segments};
pub use symbols::{SymbolRef, Symbols};
