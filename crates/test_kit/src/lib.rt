//! What the crates of tests share: gates that hold workers back or count what they do, jobs that watch how they are asked, files in
//! memory, and the bytes and parts of small objects. Nothing of the program calls it, and what it makes is looked at where tests run.
#![tactic(auto)]

mod bytes;
mod counted;
mod files;
mod hold;
mod meeting;
mod metadata;
mod objects;
mod rendezvous;
mod tally;
mod types;

pub use bytes::{joined, module_of, name};
pub use counted::{Asked, Counted};
pub use files::{file, roomy_shelf, shelf_of, texts};
pub use hold::Hold;
pub use meeting::Meeting;
pub use metadata::{group, member, reloc, segment_info, silent, symbol};
pub use objects::{
    begun_object, calling_module, calling_object, calls_a_otherwise, defines_a, library, needs_a,
    part_of_cut,
};
pub use tally::Tally;
pub use types::{func_type, import};
