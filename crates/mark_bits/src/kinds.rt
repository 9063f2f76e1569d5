//! The kinds of chunks, as a `Chunk` has them.

/// A function, by its number among those that the input defines.
pub const FUNCTION: u8 = 0;

/// A data segment, by its number among those of the input.
pub const SEGMENT: u8 = 1;

/// A global, by its number among those that the input defines.
pub const GLOBAL: u8 = 2;
