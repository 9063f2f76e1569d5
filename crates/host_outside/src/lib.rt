//! The outside as the machine has it, for the programs: their words, files by their paths, and standard output. It is the trusted edge: the
//! shelf and the sink tell nothing of what a file holds or what was written, so no clause speaks of that.
#![tactic(auto)]

mod ahead;
mod file_reading;
mod file_shelf;
mod file_writing;
mod large_reading;
mod output_sink;
mod words;
mod writing;

pub use ahead::{NothingAhead, ReadAhead};
pub use file_reading::{Loaded, read_shorter, read_whole};
pub use file_shelf::FileShelf;
pub use large_reading::{LEAST_LARGE, read_large};
pub use output_sink::OutputSink;
pub use words::{WordsFault, words_of};
