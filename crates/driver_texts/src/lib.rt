//! Texts that drivers' words lead to: the words of response files, the members of thin libraries, and
//! paths as words.
#![tactic(auto)]

mod paths;
mod response;
mod thin;

pub use paths::{member_path, plain, strip_end};
pub use response::tokens;
pub use thin::{THIN, members};
