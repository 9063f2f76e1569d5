//! The options as compiler drivers and build systems write them for LLVM's wasm-ld: tables of them,
//! and words cut into items by these tables. It is a part of a front for drivers.
#![tactic(auto)]

mod cut;
mod item;
mod meaning;
mod numbers;
mod rows;
mod texts;

pub use cut::{Begun, cut_words};
pub use item::Item;
pub use meaning::Meaning;
pub use numbers::{TOO_MUCH, amount, is_decimal};
pub use rows::{Dashes, Row};
pub use texts::{Line, strip};
