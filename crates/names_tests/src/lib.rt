//! Tests. The section `name` is written.
#![tactic(auto)]

#[cfg(test)]
mod section;
