//! Tests. Bits that several threads set, and the parts that roots reach.
#![tactic(auto)]

#[cfg(test)]
mod bits;
#[cfg(test)]
mod liveness;
