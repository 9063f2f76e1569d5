//! Linking sections, modules and indexes of libraries, read and written: what is told of spelled bytes, and the first fault of others.
#![tactic(auto)]

#[cfg(test)]
mod library;
#[cfg(test)]
mod linking;
#[cfg(test)]
mod module;
