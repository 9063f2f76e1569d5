//! The program under the name `wasm-ld`: it takes the words that compiler drivers write, links as they mean, and speaks as wasm-ld does.
#![tactic(auto)]

mod driving;
mod linking;
mod manual;
mod mismatches;
mod names;
mod outcome;
mod saying;

pub use driving::drive;
pub use link_command::link_command;
pub use outcome::Outcome;
