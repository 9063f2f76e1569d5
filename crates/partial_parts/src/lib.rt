//! The parts of the object that a partial link makes: the kept functions, segments and globals of the loaded objects, by input and index.
#![tactic(auto)]

mod kept;

pub use kept::{Kept, kept_of, place_in, place_of};
