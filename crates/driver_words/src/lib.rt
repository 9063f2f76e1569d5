//! The words that compiler drivers and build systems write for LLVM's wasm-ld, translated into the
//! linker's own words: response files in their words' places, options judged, files looked for.
#![tactic(auto)]

mod answer;
mod finder;
mod inputs;
pub mod laws;
mod search;
mod spread;
mod start;
mod stop;
mod translation;

pub use answer::{Answer, What};
pub use driver_texts::tokens;
pub use finder::Finder;
pub use search::{find_from, find_library};
pub use spread::expand_all;
pub use stop::Stop;
pub use translation::translate;
