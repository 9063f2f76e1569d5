//! The partial link, as a definition: `partial_of` in `specs/`, from files and a plan to the first fault or the bytes of one relocatable
//! object, which a later link takes in the place of its parts. What is proved of it stands in `laws`.
#![tactic(auto)]

pub mod laws;
