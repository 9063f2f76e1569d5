//! What loaded objects say of the features that they use, whether they agree, and the section `target_features` behind a module.
//!
//! What objects say together is found without lists (`said`). Only where one of them asks something of others, or words tell what is allowed,
//! is what each says listed, and judged (`check`).
#![tactic(auto)]

mod check;
pub mod laws;
mod said;
mod tail;

pub use tail::feature_tail;
