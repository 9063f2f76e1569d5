//! What is read before the first round: the objects of the words, and the indexes of libraries.

use lib_index::Library;
use object_file::Object;
use wl_base::InputId;

/// A library of the words, by its index.
#[derive(Drop)]
pub struct LibraryFile {
    /// The place of its file among the files.
    pub file: u32,
    /// The input that its first member is.
    pub first: InputId,
    /// Whether all of its members are loaded at once (`--whole-archive`).
    pub whole: bool,
    /// Its index.
    pub library: Library,
}

/// An object of the words.
#[derive(Debug, Drop)]
pub struct GivenObject {
    /// What it says; its input is its precedence.
    pub object: Object,
    /// Whether it is loaded only by need, as between `--start-lib` and `--end-lib`.
    pub lazy: bool,
}
