//! Tests. The names of functions behind the module of a link.
#![tactic(auto)]

#[cfg(test)]
mod links;
