//! All that the program does, over any shelf of files and any sink of lines: it reads the words, loads the inputs, links them, saves the
//! output, and says how it ended.
#![tactic(auto)]

mod asked;
mod calls;
mod command;
mod ending;
mod inputs;
mod status;

pub use asked::Asked;
pub use calls::tell_calls;
pub use command::{link_command, link_like_lld};
pub use link_core::Mismatch;
pub use status::Status;
