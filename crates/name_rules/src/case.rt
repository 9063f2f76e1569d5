//! A case of two entries of one name.

use wl_base::InputId;

/// A name, by its number, and the inputs of two entries that can't stand together.
#[derive(Clone, Copy, Debug, PartialEq, Eq)]
pub struct PairCase {
    /// The name's number in the table of names.
    pub name: u32,
    /// The input of the least entry, or of the least strong definition.
    pub first: InputId,
    /// The input of the case itself.
    pub other: InputId,
}
