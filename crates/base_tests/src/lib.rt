//! Tests. Lists, texts and names, numbers, shelves, sinks and gates, and work divided by halves: each call once with memory there, on real threads.
#![tactic(auto)]

#[cfg(test)]
mod halves;
#[cfg(test)]
mod numbers;
#[cfg(test)]
mod outside;
#[cfg(test)]
mod rows;
#[cfg(test)]
mod seqs;
