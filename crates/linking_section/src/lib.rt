//! The section `linking`: what an object says of its symbols, segments, init functions and groups,
//! for the linker (tool conventions, Linking.md, 'Linking Metadata Section').
#![tactic(auto)]

mod fault;
mod flags;
mod group;
mod init;
mod laws;
mod linking;
pub mod member_kinds;
mod reading;
mod segment;
mod symbol;

pub use fault::LinkingFault;
pub use flags::{
    ABSOLUTE, EXPLICIT_NAME, EXPORTED, HIDDEN, LOCAL, NO_STRIP, RETAIN, STRINGS, THREAD_LOCAL, TLS,
    UNDEFINED, WEAK,
};
pub use group::{Group, Member, group_at, member_at};
pub use init::{InitFunc, init_at};
pub use laws::{items_are_unambiguous, linking_is_steady, linking_is_unambiguous};
pub use linking::Linking;
pub use reading::{linking_at, read};
pub use segment::{SegmentInfo, segment_at};
pub use symbol::{Symbol, SymbolKind, symbol_at};
