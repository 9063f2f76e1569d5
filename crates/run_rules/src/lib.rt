//! What a run of WebAssembly code is: the machine that carries out instructions (Core 4), sessions
//! of calls with the answers of a host, and traces.
//!
//! The machine runs in a world. A world tells which function a call names, which cell a global
//! instruction names, what the table holds, and which functions run; instructions in it have these
//! answers in the place of their indexes. So one machine runs a module and what a module was linked from.
#![tactic(auto)]

mod op;
mod session;
mod state;
mod trace;
mod value;
mod world;

pub use op::{Mark, Op};
pub use session::{Answer, Call, GivenGlobal, MemWrite, Session};
pub use state::{Frame, How, Inner, Label, State};
pub use trace::{Event, NamedValue, Trace, TrapKind};
pub use value::{Class, Value};
pub use world::{Exported, Function, Source, Target, World};
