//! Worked links beside those of `link_rules`: what each tells, a change of one word of the definition would change. Nothing stands
//! on this crate.
#![tactic(auto)]
