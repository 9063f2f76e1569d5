//! A library without an index, as `ranlib` completes it, so that it is linked as one with an index is.
//!
//! The members are found by the library's own reader, in a copy that has an index which gives nothing.
//! Each is read once, from where it stands; the names that it defines for other objects are what the
//! index gives for it.
#![tactic(auto)]

mod entries;
mod files;
mod index;
mod indexing;
mod laws;
mod members;

pub use files::with_indexes;
pub use indexing::with_index;
pub use laws::completed_libraries_are_read;
