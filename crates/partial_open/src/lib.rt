//! Why a partial link is refused though its names are in order: a kept part refers to a local symbol of a part that isn't kept.
//!
//! An object without such symbols isn't looked at any further, so nearly all links end with one look at the symbols. Of the others the
//! symbols are flagged that its kept parts name, and the first that is flagged and lost is the fault's.
#![tactic(auto)]

mod flags;
mod lost;

pub use lost::open_local;
