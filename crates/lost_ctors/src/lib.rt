//! Whether constructors would be lost, or what is to be done at exit, in a link that is like lld's: where no object names the linker's
//! function that calls the init functions, lld would wrap each exported function in one that calls it.
#![tactic(auto)]

mod alive;
mod exits;
mod inits;
mod lost;
mod words;

pub use link_marks::{
    Live, all_are_meant, exports, first_fixed, live_parts, mode_of, repeated_export, unresolved,
};
pub use lost::uncalled;
