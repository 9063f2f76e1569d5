//! The bytes of the object that a partial link makes, written from plain data.
//!
//! Nothing of files is copied but into the object, and no list of its relocations is made: each is made of what a window names where it is
//! measured, and again where it is written (`entries`). First the object is measured (`measuring`), so that the caller can refuse one that is
//! too long; workers measure relocations (`lengths`), and each is measured once. Then it is laid out as pieces that stand one behind another
//! (`pieces`, `laying`): a body or a segment is one (`part`), and so are the relocations of each, all before the code section and the section
//! `linking` (`sections`, with what stands in their vectors in `item`, `items` and `symbols`). The pieces are written by several workers at
//! once, each a run of them (`division`, `writing`).
#![tactic(auto)]

mod division;
mod entries;
mod item;
mod items;
mod laws;
mod laying;
mod lengths;
mod measuring;
mod part;
mod pieces;
mod sections;
mod spans;
mod sums;
mod symbols;
mod tree;
mod within;
mod writing;

pub use laws::rows_are_windowed;
pub use measuring::{Measured, SectionSize, measure};
pub use spans::bytes_in;
pub use tree::{GlobalRow, GroupRow, InfoRow, Numbers, Part, SymbolRow, Tree};
pub use within::lie_in;
pub use writing::written;
