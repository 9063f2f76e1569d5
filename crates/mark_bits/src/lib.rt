//! Marking in parallel. Chunks are the parts of a link that are live or dead as a whole; they have
//! numbers, and a set of them has a bit for each. Workers set bits side by side, by one atomic step a
//! mark, and each chunk is marked first by exactly one of them. The laws say what marking in rounds
//! gives, whatever the order of the steps.
#![tactic(auto)]

mod bits;
mod chunk;
mod chunk_table;
pub mod kinds;
pub mod laws;
mod party;
mod rule;
mod set;

pub use bits::{MarkBits, MarkSeat};
pub use chunk::Chunk;
pub use chunk_table::ChunkTable;
pub use party::Party;
pub use set::MarkSet;
