//! What is exported, and what is live.

use link_output::Winner;
use lost_ctors::Live;
use wl_base::Seq;

/// What was chosen of a program.
#[derive(Drop)]
pub struct Chosen {
    /// The exported winners.
    pub exports: Seq<Winner>,
    /// The live parts.
    pub live: Live,
}
