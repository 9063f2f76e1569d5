//! What the formats ask of bytes as text: whether they are UTF-8, and where a name ends at a 0.
#![tactic(auto)]

mod search;
mod utf8;

pub use search::first_zero;
pub use utf8::is_utf8;
