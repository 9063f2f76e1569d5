//! What stands behind the output of a link that keeps its debug sections: definitions alone, with a
//! worked link.
#![tactic(auto)]

pub use link_debug::offsets_name_instructions;
