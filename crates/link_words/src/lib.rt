//! The words of the command line, and the plan that they ask for.
#![tactic(auto)]

mod cut;
mod error;
mod faults;
mod fields;
mod item;
mod kind;
pub mod laws;
mod numeral;
mod options;
mod range;
mod reading;

pub use error::WordError;
pub use link_plan::{InputWord, Plan};
pub use reading::read_words;
