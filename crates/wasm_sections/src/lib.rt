//! How a file is cut into sections (WebAssembly Core Specification 2.0, sections 5.5.2 and 5.5.16,
//! with the tag section of the exception handling proposal).
//!
//! The payloads aren't read here. Sections cover the file: each byte after the header is a
//! section's id, in its size or in its payload.
#![tactic(auto)]

mod fault;
mod laws;
mod reading;
mod section;

pub use fault::FrameFault;
pub use laws::{frame_is_unambiguous, sections_are_read, sections_lie_in_order};
pub use reading::frame;
pub use section::SectionSpan;
