//! What the program meets outside: files by name, a place for its lines, and a hook before each
//! job. Each comes with an implementation in memory, for tests.
#![tactic(auto)]

mod gate;
mod held;
mod listed;
mod mem_shelf;
mod mem_sink;
mod never_fails;
mod shelf;
mod sink;

pub use gate::{Gate, OpenGate, Phase};
pub use held::{Held, names_differ};
pub use mem_shelf::MemShelf;
pub use mem_sink::MemSink;
pub use never_fails::NeverFails;
pub use shelf::{LoadFault, Shelf};
pub use sink::{Failed, Sink};
