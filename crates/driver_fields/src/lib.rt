//! What drivers' words say when they are cut into options: the value of each option, the first value
//! that is refused, what all words together lack, the linker's own words, but for the inputs, and what
//! is asked of names and features.
#![tactic(auto)]

mod fields;
mod own;
mod sections;
mod together;
mod values;

pub use fields::fatal;
pub use own::{own_words, warnings};
pub use sections::{feature_words, keeps_names};
pub use together::lacking;
pub use values::values_fault;
