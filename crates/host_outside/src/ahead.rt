//! What was read before it was asked for.

use crate::file_reading::Loaded;

/// Files that were read before they are asked for.
pub trait ReadAhead {
    /// What was read of a file, where it is the next one of those foreseen.
    fn take(&mut self, name: &str) -> Option<Loaded>;
}

/// No file is foreseen.
#[derive(Drop)]
pub struct NothingAhead;

impl ReadAhead for NothingAhead {
    fn take(&mut self, _name: &str) -> Option<Loaded> {
        None
    }
}
