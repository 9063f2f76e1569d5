//! The words of `wasmrun`: which module is run, by which script, with how many steps at most. They are
//! taken or refused as clap takes or refuses them for one simple command.
#![tactic(auto)]

mod command;
mod error;
mod reading;

pub use error::RunWordsError;
pub use reading::{RunWords, read_words};
