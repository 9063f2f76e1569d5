//! What references are looked up in.

use crate::placed::{Cells, Functions};
use link_program::Tables;

/// What references are looked up in.
#[derive(Clone, Copy)]
pub struct Sought<'a> {
    pub tables: &'a Tables,
    /// What the cell of the address of each symbol would hold.
    pub bases: &'a [u64],
    pub functions: &'a Functions,
    pub cells: &'a Cells,
}
