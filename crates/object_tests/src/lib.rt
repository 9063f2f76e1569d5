//! Objects as they are kept and read whole: what is told of spelled bytes, and the first rule that others break.
#![tactic(auto)]

#[cfg(test)]
mod columns;
#[cfg(test)]
mod object;
#[cfg(test)]
mod refused;
