//! Numbers in seven bits a byte, the lowest first (LEB128): readers that refuse what the form
//! doesn't allow, and writers of the shortest spelling and of the one of five bytes.
//!
//! WebAssembly Core Specification 2.0, "Binary Format, Values, Integers". The spelling of five
//! bytes is that of relocated numbers: tool-conventions, Linking.md, "Relocation Sections".
#![tactic(auto)]

mod fault;
mod five;
mod form;
pub mod number_laws;
mod reading;
mod writing;

pub use fault::LebFault;
pub use reading::{read_s32, read_s33, read_s64, read_u32};
pub use writing::{put_s32_5, put_u32_5, write_s32, write_s64, write_u32};
