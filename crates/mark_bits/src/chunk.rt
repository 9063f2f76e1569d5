//! A part of the link that is live or dead as a whole.

use wl_base::InputId;

/// A function, a data segment or a global of an input. One that the linker makes has input 0, and its
/// number among those for an index.
#[derive(Clone, Copy, Debug, PartialEq, Eq, Hash)]
pub struct Chunk {
    pub input: InputId,
    /// `kinds::FUNCTION`, `kinds::SEGMENT` or `kinds::GLOBAL`.
    pub kind: u8,
    /// The place among what the input defines of its kind.
    pub index: u32,
}
