//! Tests. Words and their plan, lines, and the generated case.
#![tactic(auto)]

#[cfg(test)]
mod cases;
#[cfg(test)]
mod lines;
#[cfg(test)]
mod words;
