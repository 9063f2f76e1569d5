//! Which names are exported, which parts are live, and which names stay unresolved.
#![tactic(auto)]

mod asked;
mod chunks;
mod due;
mod edges;
mod exported;
mod fixed;
mod laws;
mod live;
mod numbers;
mod objects;
mod open;
mod repeated;
mod roots;
#[cfg(test)]
mod tests;
mod work;

pub use chunks::{number_defined, number_led};
pub use exported::{export_name, exports};
pub use fixed::first_fixed;
pub use laws::all_are_meant;
pub use link_program::{
    Entries, EntryRef, LinkError, Mode, Names, Program, Tables, Winner, mode_of, part_at, symbol_at,
};
pub use live::{Live, live_parts};
pub use open::unresolved;
pub use repeated::repeated_export;
