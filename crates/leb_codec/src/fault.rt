//! Why bytes begin with no number.

use thiserror::Error;

/// Why no number stands at the front of some bytes.
///
/// Core Specification, "Binary Format, Values, Integers".
#[derive(Clone, Copy, Debug, PartialEq, Eq, Error)]
pub enum LebFault {
    /// The bytes end before a byte below 0x80 and before the greatest length.
    #[error("the number ends too early")]
    Short,
    /// The byte at the greatest length is 0x80 or more.
    #[error("the number is too long")]
    Long,
    /// The byte at the greatest length has bits that the form has no room for.
    #[error("the number is too large")]
    BadTail,
}
