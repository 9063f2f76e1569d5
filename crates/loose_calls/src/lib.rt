//! Calls of functions by another type than their definition has, in a link with loose calls: what declarations without a prototype make.
//! Each is a call of the variant of the function for this type, which is null, so that it traps: one symbol more for each symbol that is
//! called so, with a name of its own for each function and type. A link without such calls has none of this.
#![tactic(auto)]

mod finding;
mod interning;
mod loosening;
mod naming;
mod telling;
mod variant;

pub use loosening::loosened;
pub use name_cases::{first_clash, first_duplicate, first_loose_clash};
pub use program_tables::{
    Entries, EntryTable, Home, LinkError, Mode, Names, Object, PairCase, Program, Resolution,
    Tables, add_names, asked_names, mode_of, resolve, tables_of,
};
pub use telling::mismatches;
