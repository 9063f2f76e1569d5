//! Tests. The section `target_features`, read and written, what objects say in it, and what stands behind a module.
#![tactic(auto)]

#[cfg(test)]
mod behind;
#[cfg(test)]
mod section;
