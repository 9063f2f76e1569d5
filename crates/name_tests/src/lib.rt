//! Tests. Names by number, what is looked up of symbols, how the races for names are asked and who wins, what symbols mean, and which
//! names clash, are duplicates or are left open.
#![tactic(auto)]

#[cfg(test)]
mod answers;
#[cfg(test)]
mod asked;
#[cfg(test)]
mod entries;
#[cfg(test)]
mod jobs;
#[cfg(test)]
mod looking;
#[cfg(test)]
mod made;
#[cfg(test)]
mod meanings;
#[cfg(test)]
mod numbers;
#[cfg(test)]
mod objects;
#[cfg(test)]
mod unresolved;
