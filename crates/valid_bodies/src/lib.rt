//! Whether the bodies of functions have a typing in their context (Core 3.3 and 3.4.1).
//!
//! An instruction's shape is what typing sees of it: its index is looked up first (`meanings`), then
//! its opcode (`shapes`, `numeric`, `accesses`). The shapes are read once, by the validation
//! algorithm of Core, appendix A.3 (`frames`, `operands`).
//!
//! A module's shapes are never made: most instructions say by themselves what they take and give (`effects`), calls and
//! blocks have it in the context, and the others of control are typed by what is open (`reading`). The blocks that are open
//! lie on one stack of operands (`blocks`, `layer`), which a worker uses for all its bodies. So no instruction takes memory of
//! its own. Bodies are read by one worker (`bodies`) or several (`sharing`). Who reads a body from its bytes asks the labels
//! of a `br_table` one by one (`labels`).
//!
//! An instruction whose references aren't its indices, as in an object, has its shape by what it names
//! (`shape_by`), and is read like any other (`reads`).
#![tactic(auto)]

mod accesses;
mod blocks;
mod bodies;
mod effects;
mod frames;
mod labels;
mod layer;
mod meanings;
mod numeric;
mod opcodes;
mod operands;
mod reading;
mod shapes;
mod sharing;
mod types;

pub use accesses::access_effect;
pub use blocks::Blocks;
pub use bodies::{first_untyped, reads_one};
pub use effects::Effect;
pub use frames::{cuts, reads, reads_effect};
pub use labels::{label_arity, label_fits};
pub use meanings::type_at;
pub use numeric::numeric_effect;
pub use reading::reads_at;
pub use shapes::{effect_at, effect_by, shape_by};
pub use sharing::first_untyped_by;
pub use types::{Context, Meaning};
