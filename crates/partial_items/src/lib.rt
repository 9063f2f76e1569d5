//! What of the object that a partial link makes is no table of the program: its types' numbers, imports, globals, exports, segments and
//! groups, and the rows of its tree that lend names and bytes. All is found by the numbers of kept parts, and by the numbers of names.
#![tactic(auto)]

mod exports;
mod functions;
mod globals;
mod groups;
mod imports;
mod infos;
mod member;
mod numbers;
mod owned;
mod parts;
mod symbols;

pub use exports::exports_of;
pub use functions::{functions_of, type_numbers};
pub use globals::globals_of;
pub use groups::{Won, group_rows, groups_of};
pub use imports::imports_of;
pub use infos::infos_of;
pub use member::Places;
pub use numbers::TypeNumbers;
pub use partial_bytes::{Numbers, Part, Tree, measure, written};
pub use partial_tree::{
    Entries, Kept, LinkError, Look, Program, Row, Sight, Standing, inits_of, kept_of, refuse,
    rows_of, sight_of, standing_of,
};
pub use partial_types::{Open, count_of, opens_of, types_of};
pub use parts::{parts_of, symbol_numbers};
pub use symbols::symbols_of;
