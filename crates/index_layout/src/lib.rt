//! Numbers of what an index space holds: the imports first, then what is defined.
#![tactic(auto)]

mod laws;
mod numbers;

pub use laws::numbered_by_code;
pub use numbers::{Numbers, number};
