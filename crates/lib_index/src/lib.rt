//! A static library by its index.
//!
//! A library is an archive of objects as `ar` makes it: a magic, and members one after another, each
//! behind a header of 60 bytes. The first member is the index, which says which member defines a
//! name; no object is read to find one.
#![tactic(auto)]

mod fault;
mod header;
mod index;
mod laws;
mod library;
mod magic;
mod members;
mod table;

pub use fault::LibError;
pub use laws::{library_is_unambiguous, members_lie_in_order, the_least_is_offered};
pub use library::{Library, read_index};
pub use magic::has_magic;
