//! The loaded objects of a link as the machine takes them, with nothing linked: each function with its instructions, in which each
//! reference is what it means, the cells, the table, the exports, and what the memory holds at first. What is run of them by
//! `run_machines::run_sym` is what is run of the linked module.
#![tactic(auto)]

mod exports;
mod objects;
mod steps;
mod world;

pub use link_program::LinkError;
pub use steps::sym_world;
