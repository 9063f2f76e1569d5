//! Runs a module by a script: the bytes of both are loaded, the module is run, and its trace is printed. What is printed is the text that
//! `run_text` defines of the trace that `run_rules` defines, and each refusal comes exactly where the definition `answer_of` has it.
#![tactic(auto)]

mod command;
mod loading;
mod running;
mod status;
mod table;

pub use command::run_command;
pub use running::run_text;
pub use status::{RunError, RunFault, RunStatus};
