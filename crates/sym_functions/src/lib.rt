//! The functions and the table of the loaded objects of a link as the machine takes them: each reference is what it means, by the layout of
//! the link. `sym_world` puts the rest of the objects beside them.
#![tactic(auto)]

mod bases;
mod runs;

pub use bases::{address, bases_of};
pub use runs::{functions, table};
pub use sym_parts::{Cells, Functions, Sought, first_cells, numbers_in_order, segments_of};
