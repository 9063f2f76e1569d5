//! Words of drivers over shelves in memory: what they stand for, response files in their words' places, and files
//! that are looked for.
#![tactic(auto)]

#[cfg(test)]
mod cases;
#[cfg(test)]
mod drivers;
#[cfg(test)]
mod inputs;
#[cfg(test)]
mod refusals;
#[cfg(test)]
mod sections;
#[cfg(test)]
mod values;
#[cfg(test)]
mod words;
