//! Instructions (Core 5.4) and the bodies of functions (Core 5.5.13), read, skimmed and written.
//!
//! A body that is read has each instruction with its places. Skimming goes over the same bytes for
//! a scanner that keeps nothing: it takes no memory, and tells of each instruction its outline, and
//! where its last immediate and the next instruction begin.
#![tactic(auto)]

mod body;
mod class;
mod immediates;
mod instr;
mod laws;
pub mod opcodes;
mod outline;
mod skim;
mod writing;

pub use body::{Body, BodyFault, LocalRun, Placed, body_at, read_body};
pub use class::{Class, class_of};
pub use instr::{BlockKind, Instr, instr_at};
pub use laws::{
    body_is_steady, body_is_unambiguous, instr_is_steady, instr_is_unambiguous,
    outlines_tell_blocks, places_rise,
};
pub use outline::{Outline, outline_step};
pub use skim::{skim_at, skip_locals_at};
pub use writing::{put_body, put_instr, write_instr};
