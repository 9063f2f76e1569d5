//! The lines that the program prints, one for each fault, each usage and each other way in which its work ends. A line goes
//! out piece by piece and takes no memory.
#![tactic(auto)]

mod case_line;
mod end_line;
mod fault_line;
mod label;
mod piece;
mod printing;
mod usage_line;

pub use case_line::{CaseSummary, say_case};
pub use end_line::{say_no_memory, say_read_fault, say_write_fault};
pub use fault_line::say_fault;
pub use label::{Label, label_of_item};
pub use piece::Piece;
pub use printing::print;
pub use usage_line::say_usage;
