//! The loaded objects of a program as the machine takes them, part by part: each function with its instructions, in which each reference
//! is what it means; the cells; the table; and what the memory holds at first. `sym_world` puts them together.
#![tactic(auto)]

mod bodies;
mod bytes;
mod cells;
mod clones;
mod functions;
mod kinds;
mod least;
mod listing;
mod nulls;
mod numbers;
mod ops;
mod placed;
mod places;
mod rows;
mod segments;
mod slots;
mod sought;

pub use cells::first_cells;
pub use functions::functions_of;
pub use least::least_entries;
pub use placed::{Cells, Functions};
pub use segments::{numbers_in_order, segments_of};
pub use slots::table_of;
pub use sought::Sought;
