//! What the linker makes symbols for.

/// What kind of module the link gives.
#[derive(Clone, Copy, Debug, PartialEq, Eq)]
pub enum Mode {
    /// A module whose memory and table stand at addresses and slots that the linker chose.
    Plain,
    /// A module that its loader places (DynamicLinking.md).
    Shared,
}
