//! Where things are in the output that debug sections tell of.

use wl_base::{FileSpan, Seq};

/// Where the objects' bytes are, and where their symbols are in the output. Each list of places has
/// a list for each object, with a place for each symbol; `None` where there is none, and what isn't
/// in the lists has none.
#[derive(Debug, Drop)]
pub struct DebugPlaces {
    /// The bytes of each object. An object without a span has no sections.
    pub inputs: Seq<FileSpan>,
    /// Where the function's own body begins in the code section's payload, behind its size: of
    /// functions that are defined in the object and live.
    pub bodies: Seq<Seq<Option<u32>>>,
    /// The address of what is meant, where that is live.
    pub addresses: Seq<Seq<Option<u32>>>,
    /// The slot of the function in the table.
    pub slots: Seq<Seq<Option<u32>>>,
    /// The number of the global.
    pub globals: Seq<Seq<Option<u32>>>,
    /// How many bytes the output has before its debug sections.
    pub length: u64,
}
