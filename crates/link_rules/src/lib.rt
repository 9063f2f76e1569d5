//! The whole link, as a definition: `link_of` in `specs/`, from files and a plan to the first fault or the bytes of the output.
#![tactic(auto)]
