//! A stack: a list that contracts see with the newest item first, as the machine of the standard
//! and its validation have their operands, labels and frames.
#![tactic(auto)]

mod stack;

pub use stack::Stack;
