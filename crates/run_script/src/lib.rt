//! Scripts of `wasmrun`: lines of text that say what is called, what the host answers, and with which memory,
//! table and globals. They are defined by reading, so that one definition says what is read and which line is the
//! first that isn't one.
#![tactic(auto)]

mod givens;
mod item;
mod names;
mod numbers;
mod pieces;
mod script;
mod values;

pub use script::{Script, ScriptError, read_script};
