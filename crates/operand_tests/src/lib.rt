//! Operands of bodies: what relocations name in them, and that the quick pass over short instructions tells what reading tells.
#![tactic(auto)]

#[cfg(test)]
mod short_forms;
#[cfg(test)]
mod windows;
