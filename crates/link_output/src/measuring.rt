//! How long the output is.
ghost use Rattle.std.specs.Prelude.{◌≡◌};
ghost use Rattle.link_output.specs.Written.{Measures, is_exact};
ghost use Rattle.link_program.specs.image_emit.Measures.{LieIn};

use image_emit::{Image, Measured, measure};
use std::alloc::Global;
use wl_base::{LayoutError, Seq};

/// The length of the output, and where its sources stand: the bodies, then the blocks.
///
/// # Errors
///
/// `Overflow` with `OutputLength` exactly where the output has more than 2^31 - 1 bytes; it tells their number. `OutOfMemory`, also
/// where no i64 holds the number.
#[tactic(auto, using(crate::proofs::Lengths::measures))]
pub fn measured(alloc: Global, files: &[Seq<u8>], image: &Image) -> Result<Measured, LayoutError>
    requires { LieIn files.now image.now }
    ensures { Measures result files.now image.now }
{
    let answer = measure(alloc, image);
    if !is_exact(&answer) {
        return Err(LayoutError::OutOfMemory);
    }
    answer
}

// Whether a length that is told isn't the greatest of an i64.
fn is_exact(answer: &Result<Measured, LayoutError>) -> bool
    ensures { result ≡ is_exact answer.now }
{
    match answer {
        Err(LayoutError::Overflow { needed, .. }) => *needed < i64::MAX,
        _ => true,
    }
}
