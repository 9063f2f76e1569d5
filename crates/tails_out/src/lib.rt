//! What stands behind the output of a link, made where the words ask for it: the debug sections, the functions' names, the features that objects
//! use (`laid_whole` in link_tails/specs/Tails.antt).
#![tactic(auto)]

mod behind;

pub use behind::tail_behind;
