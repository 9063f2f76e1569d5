//! What the instructions of a run do to numbers and to the values of a function, exactly as
//! `run_rules` defines it: the numeric table (Core 4.3.2), numbers in memory (Core 4.4.7), and the
//! values by the blocks that are open (Core 4.2.12).
#![tactic(auto)]

mod bits;
mod bytes;
mod class;
mod computing;
mod layers;
mod rows;
mod signed;
mod width;

pub use bytes::{number_1, number_2, number_4, number_8, put_at};
pub use computing::{Went, compute};
pub use layers::{Jump, Layered, Opened};
pub use signed::{extend_8_32, extend_8_64, extend_16_32, extend_16_64, extend_32_64};
pub use width::{number_of, value_at};
