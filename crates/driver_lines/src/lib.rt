//! The lines of a refused link under the name `wasm-ld`, in the words of LLVM's linker for
//! WebAssembly: with the names of files, of libraries' members and of symbols. A line goes out piece
//! by piece and takes no memory; the names of inputs do.
#![tactic(auto)]

mod archive;
mod called;
mod forms;
mod inputs;
mod mismatch;
mod refusal;
mod told;
mod words;

pub use called::Naming;
pub use inputs::input_names;
pub use mismatch::say_mismatch;
pub use refusal::say_refusal;
pub use told::{say_error, say_warning};
