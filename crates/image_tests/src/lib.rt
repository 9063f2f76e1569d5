//! Modules written from an image: the bytes, by one worker and by many, and what the gate is told.
#![tactic(auto)]

#[cfg(test)]
mod image;
