//! The debug sections of a link, joined, with the words that their relocations name.
//!
//! Nothing of the objects is copied but into the output. First the sections of all objects are found
//! and judged (`faults`, with tables by their places in `targets`; relocations are judged while they
//! are read, in `entries`), then they are grouped by name and measured (`groups`, `measure`). Last
//! each contribution is copied behind the one before it, and its windows are written in place
//! (`pieces`, `windows`), by one worker or several (`division`). What a window holds is found in
//! tables, by object and symbol.
#![tactic(auto)]

mod division;
mod entries;
mod error;
mod faults;
mod groups;
mod joining;
mod measure;
mod pieces;
mod places;
mod refs;
mod sections;
mod targets;
mod windows;

pub use error::DebugError;
pub use faults::bytes_in;
pub use joining::{join_debug, join_debug_by};
pub use places::DebugPlaces;
pub use refs::CustomRef;
pub use sections::customs;
