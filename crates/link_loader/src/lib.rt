//! What the loader of a shared output is told, and the words that the output's own function makes right when it is loaded.
#![tactic(auto)]

mod all_words;
mod bound;
mod cells;
mod own;
mod placed;
mod section;
#[cfg(test)]
mod tests;
mod weak;
mod windows;

pub use all_words::words;
pub use section::dylink;
