//! Which inputs of a link are loaded, as a definition: `load` in `specs/Rounds.antt`, round after
//! round. Beside it stand the types of what is read before the first round.
#![tactic(auto)]

mod given;

pub use given::{GivenObject, LibraryFile};
