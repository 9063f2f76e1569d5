//! Loads the inputs that a link needs, as the definition in `round_rules` has it: at once, and then
//! round after round. Several threads read the members ahead that will probably be needed.
#![tactic(auto)]

mod adds;
mod begin;
mod call;
mod early;
mod error;
mod foresight;
mod frontier;
mod gather;
mod given;
pub mod laws;
mod lies;
mod loaded;
mod loading;
mod needs;
mod offer;
mod reading;
mod running;
mod slot;
mod table;

pub use call::load_rounds;
pub use error::RoundError;
pub use given::GivenObject;
pub use loaded::Loaded;
pub use round_rules::LibraryFile;
