//! What is left to write when all is placed and numbered.

use crate::tail::Tail;
use image_emit::{Image, Measured};
use patch_pieces::Pieces;

/// An output that is ready to be written: nothing of the program is needed any more.
#[derive(Drop)]
pub struct Prepared {
    pub image: Image,
    /// Where the sources of the image stand, and how long the output is.
    pub measured: Measured,
    /// What is written into the windows of the sources.
    pub patches: Pieces,
    /// What stands behind the output.
    pub tail: Tail,
}
