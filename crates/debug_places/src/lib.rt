//! The debug sections behind the output of a link: where the things are that they name, and the
//! sections joined by that.
//!
//! All that is looked up the link has found already: numbers of functions, slots and globals
//! (`found_numbers`), addresses of live segments (`addresses`), places of bodies (`bodies`). One pass over
//! the symbols of all objects makes a list for each object (`rows`). Objects whose debug sections
//! name nothing get their lists too: which ones these are is known only when the sections are read.
#![tactic(auto)]

mod addresses;
mod bodies;
mod live;
mod places;
mod rows;
mod spans;
mod tail;

pub use places::debug_places;
pub use spans::object_spans;
pub use tail::debug_tail;
