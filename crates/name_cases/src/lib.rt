//! The least case in which two entries of one name can't stand together: a clash of kinds, types or imports, or a second strong
//! definition.
#![tactic(auto)]

mod ask;
mod cases;
mod firsts;
mod look;
mod question;
mod rows;
#[cfg(test)]
mod tests;

pub use cases::{
    Judges, first_clash, first_duplicate, first_loose_clash, has_other_type, judges_of,
};
pub use name_entries::SymbolKind;
