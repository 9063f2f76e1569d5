//! From files to the loaded objects of a link.
//!
//! The files are opened as objects and libraries, the inputs are numbered over all of them, the
//! objects of the words are read by several threads, and then `lib_rounds` loads what is needed.
#![tactic(auto)]

mod call;
mod inputs;
mod laws;
mod limits;
mod numbering;
mod opening;
mod parts;
mod reading;
mod whole;
mod words;

pub use call::load_inputs;
pub use inputs::Inputs;
pub use laws::loaded_objects_are_sound;
pub use limits::total_len;
pub use link_program::{Home, LinkError};
