//! The numbers of all things of the output: functions, slots of the table, globals and types.
#![tactic(auto)]

mod functions;
mod giving;
mod laws;
mod numbering;
mod places;
mod shared;

pub use giving::number;
pub use laws::keys_are_told;
pub use numbering::Numbering;
