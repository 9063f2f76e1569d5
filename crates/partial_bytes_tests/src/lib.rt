//! The bytes of objects that partial links make, by one worker and by many.
#![tactic(auto)]

#[cfg(test)]
mod cases;
#[cfg(test)]
mod large;
#[cfg(test)]
mod rows;
#[cfg(test)]
mod trees;
#[cfg(test)]
mod worked;
