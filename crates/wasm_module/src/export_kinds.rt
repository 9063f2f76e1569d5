//! The kinds of exports, as an `Export` has them and a module writes them (Core 5.5.10).

/// A function.
pub const FUNCTION: u8 = 0;

/// A table.
pub const TABLE: u8 = 1;

/// A memory.
pub const MEMORY: u8 = 2;

/// A global.
pub const GLOBAL: u8 = 3;
