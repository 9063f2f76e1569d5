//! The objects of the generated case, by which a build of the linker is tried where no files are at
//! hand, and what is told of the module that they are linked to: its functions and the sum of its
//! bytes.
//!
//! WebAssembly Core Specification 2.0, section 5, and tool-conventions, Linking.md.
#![tactic(auto)]

mod functions;
mod laws;
mod made;
mod object;
mod parts;
mod sum;

pub use functions::count_functions;
pub use laws::module_functions_are_counted;
pub use made::make_case;
pub use sum::sum_of;
