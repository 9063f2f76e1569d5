//! What a link is asked for.
#![tactic(auto)]

mod plan;

pub use plan::{FeatureWords, InputWord, Plan};
