//! Where inputs stand.

/// Where an input's bytes stand.
#[derive(Clone, Copy, Debug, PartialEq, Eq)]
pub struct Home {
    /// The place of its file among the files.
    pub file: u32,
    /// Its first byte there.
    pub start: u64,
    /// How many bytes it has.
    pub len: u64,
}
