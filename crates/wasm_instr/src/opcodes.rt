//! Opcodes that crates above name (Core 5.4).

/// `global.get`.
pub const GLOBAL_GET: u8 = 0x23;
