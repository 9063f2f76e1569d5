//! Files as other threads read them.

use host_outside::Loaded;
use std::alloc::Global;
use std::fs::File;

/// What reads files, also from several threads at once. It is a trait of its own, since what other threads call has to be known whole: `main`
/// says how the real machine does it.
pub trait HostFiles: Sync {
    /// Reads the file of this path, through a piece of memory that grows as far as the files that are read through it ask. A file of so many
    /// bytes or more is left unread.
    fn read_shorter(
        &self,
        alloc: Global,
        name: &str,
        piece: &mut Vec<u8>,
        least_left: u64,
    ) -> Option<Loaded>;

    /// Opens the file of this path for reading.
    fn open_file(&self, name: &str) -> Option<File>;
}
