//! Tests. Libraries without an index are completed.
#![tactic(auto)]

#[cfg(test)]
mod indexed;
