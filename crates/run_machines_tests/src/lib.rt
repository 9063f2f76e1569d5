//! Sessions on modules that are given as bytes, and on loaded objects, with ample memory: their traces as text.
#![tactic(auto)]

#[cfg(test)]
mod modules;
#[cfg(test)]
mod objects;
