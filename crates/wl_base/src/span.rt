//! Parts of files.

/// A run of bytes.
#[derive(Clone, Copy, Debug, PartialEq, Eq)]
pub struct Span {
    /// The place of the first byte.
    pub start: u64,
    /// How many bytes there are.
    pub len: u64,
}

/// A run of bytes of a file.
#[derive(Clone, Copy, Debug, PartialEq, Eq)]
pub struct FileSpan {
    /// The place of the file in the list of files, counted from 0.
    pub file: u32,
    pub span: Span,
}
