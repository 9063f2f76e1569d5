//! Where a section lies.

use wl_base::Span;

/// A section, and where its payload lies in the file (Core 5.5.2).
#[derive(Clone, Copy, Debug, PartialEq, Eq)]
pub struct SectionSpan {
    /// The section's id, at most 13: 0 custom, 1 type, 2 import, 3 function, 4 table, 5 memory,
    /// 6 global, 7 export, 8 start, 9 element, 10 code, 11 data, 12 data count, 13 tag.
    pub id: u8,
    /// The bytes after its size, from the file's first byte.
    pub payload: Span,
}
