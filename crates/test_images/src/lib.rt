//! Images that crates of tests share, and their bytes. Nothing of the program calls it, and what it makes is looked at where tests run.
#![tactic(auto)]

mod images;
mod writing;

pub use images::{empty_image, file_part, own_block};
pub use writing::emitted;
