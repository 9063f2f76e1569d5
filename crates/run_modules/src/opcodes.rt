//! The codes that are looked at.

/// `global.get` (Core 5.4.5).
pub(crate) const GLOBAL_GET: u8 = 0x23;

/// `global.set`.
pub(crate) const GLOBAL_SET: u8 = 0x24;

/// An export of a function (Core 5.5.10).
pub(crate) const FUNCTION_EXPORT: u8 = 0;

/// An export of a global.
pub(crate) const GLOBAL_EXPORT: u8 = 3;
