//! What is found of the loaded objects before anything is laid out: the numbers of names, the winners, what symbols mean, and the tables
//! of parts and references. Its law says where parts and their windows stand.
#![tactic(auto)]

mod building;
mod cases;
mod found;
pub mod laws;
mod meanings;
mod numbers;
mod words;

pub use building::find;
pub use found::Found;
pub use loose_calls::{LinkError, mismatches};
