//! Windows and what is written there.

use wl_base::Seq;

/// How a value is spelled in its window.
///
/// Linking.md, "Relocation Sections".
#[derive(Clone, Copy, Debug, PartialEq, Eq)]
pub enum Form {
    /// Five bytes of an unsigned LEB128 number, from 0 to 2^32 - 1.
    Unsigned5,
    /// Five bytes of a signed LEB128 number of 32 bits. The value is from -2^31 to 2^32 - 1, and is
    /// written modulo 2^32.
    Signed5,
    /// Four bytes, the lowest first. The value is from -2^31 to 2^32 - 1, and is written modulo 2^32.
    Word4,
}

/// A window of the output, and the value that belongs there.
#[derive(Clone, Copy, Debug, PartialEq, Eq)]
pub struct Window {
    /// The place of its first byte in the output.
    pub place: u64,
    pub form: Form,
    /// What the reference means, as an address, a slot or a number.
    pub target: i64,
    /// What is added to it.
    pub addend: i64,
}

/// A window of the output, and the 32 bits that are written there.
#[derive(Clone, Copy, Debug, PartialEq, Eq)]
pub struct Patch {
    /// The place of its first byte in the output.
    pub place: u64,
    pub form: Form,
    /// The value modulo 2^32.
    pub value: u32,
}

/// What is written into the output, in the order of the windows.
#[derive(Debug, PartialEq, Eq, Drop)]
pub struct Patches {
    pub patches: Seq<Patch>,
}
