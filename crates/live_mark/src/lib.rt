//! Which chunks are live: workers mark what the roots reach, in rounds.
#![tactic(auto)]

mod edges;
mod found;
mod laws;
mod plan;
mod rounds;
mod share;
mod work;

pub use edges::Edges;
pub use laws::reached_exactly;
pub use rounds::live;
