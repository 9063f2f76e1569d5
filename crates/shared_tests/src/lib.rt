//! Tests. What the loader of a shared output is told, the function that makes its addresses right, and how names are used.
#![tactic(auto)]

#[cfg(test)]
mod dylink;
#[cfg(test)]
mod uses;
