//! What a seat has done.

use std::collections::LinkedList;

/// One of those who mark, in contracts alone: no value of it is made.
pub struct Party {
    /// Into how many it can be split. One of width 0 is spent.
    pub width: u64,
    /// The chunks that it marked, in order.
    pub marked: LinkedList<u64>,
    /// The chunks whose bit it found clear, in order.
    pub first: LinkedList<u64>,
}
