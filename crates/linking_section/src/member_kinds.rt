//! The kinds of members of a group (Linking.md, 'COMDAT Info Subsection'). In the names there,
//! `WASM_COMDAT_` stands before each; globals (2), events (3) and tables (4) aren't linked.

/// A data segment.
pub const DATA: u8 = 0;
/// A function that the object defines.
pub const FUNCTION: u8 = 1;
/// A custom section.
pub const SECTION: u8 = 5;
