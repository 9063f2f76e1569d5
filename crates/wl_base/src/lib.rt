//! The small types that every crate of the linker shares: lists and texts that contracts see as
//! plain lists, spans of files, and why a link or its words are refused.
#![tactic(auto)]

mod fault;
mod item;
mod key;
mod layout_error;
mod memory;
mod name_table;
mod seq;
mod seq_same;
mod span;
mod text;
mod usage;

pub use fault::{Fault, FeatureRule, InputId, InvalidAt, LibFault, Part, What};
pub use item::Item;
pub use key::{Key, KeyRef};
pub use layout_error::LayoutError;
pub use memory::OutOfMemory;
pub use name_table::{NameFault, NameTable};
pub use seq::Seq;
pub use span::{FileSpan, Span};
pub use text::Text;
pub use usage::Usage;

/// The name of a symbol, a module, a field or a group, as bytes.
pub type Name = Seq<u8>;
