//! Tests. From files to loaded objects, and the bytes of the output.
#![tactic(auto)]

#[cfg(test)]
mod inputs;
#[cfg(test)]
mod output;
