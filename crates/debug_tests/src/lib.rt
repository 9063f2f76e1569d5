//! The debug sections of small objects, joined.
#![tactic(auto)]

#[cfg(test)]
mod faults;
#[cfg(test)]
mod joined;
#[cfg(test)]
mod links;
#[cfg(test)]
mod workers;
