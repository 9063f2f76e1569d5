//! The section of the functions' names behind the output of a link.
//!
//! What the linker makes has names of its own (`labels`). One pass over the symbols of all objects finds the first one that names each
//! other function (`offering`), by the numbers that the link has given: no name is looked up or copied before the section is
//! written.
#![tactic(auto)]

mod labels;
mod offering;
mod section;

pub use section::name_tail;
