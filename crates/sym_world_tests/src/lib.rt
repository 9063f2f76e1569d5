//! Sessions on loaded objects and on the bytes that the program saves of them: both machines print the same trace, which is the expected one.
#![tactic(auto)]

#[cfg(test)]
mod both;
#[cfg(test)]
mod rows;
