//! The section `target_features`: what objects say of the features of the target that they use, what the
//! output says of them, and whether objects agree.
#![tactic(auto)]

mod codes;
mod conflict;
mod fault;
mod feature;
pub mod laws;
mod name_key;
mod reading;
mod union;
mod writing;

pub use conflict::{Conflict, Saying, first_conflict};
pub use fault::FeaturesError;
pub use feature::{Feature, FeatureMark};
pub use reading::read_features;
pub use union::{FeatureNames, union_of};
pub use writing::{write_features, write_payload};
