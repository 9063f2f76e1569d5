//! What of the object that a partial link makes is no bytes of files, as small records: its symbols,
//! its init functions, and the law of its relocations.
#![tactic(auto)]

mod inits;
mod relocs;
mod symbols;

pub use inits::inits_of;
pub use partial_parts::{Kept, kept_of, place_in};
pub use partial_symbols::{
    At, Content, Entries, FunctionRef, GlobalDef, LinkError, Names, Object, Program, SegmentRef,
    Sight, Spot, Standing, Tables, TypeRef, part_at, refuse, row_at, sight_of, standing_of,
};
pub use relocs::relocs_are;
pub use symbols::{Look, Row, rows_of};
