//! Lines of pieces.
ghost use Rattle.wl_outside.specs.Sink.{Wrote};
ghost use Rattle.link_lines.specs.Pieces.{spelled};

use crate::Piece;
use wl_outside::{Failed, Sink};

/// Writes the pieces one after another, up to the first write that fails. It takes no memory.
///
/// # Errors
/// `Failed` where a write fails; the sink then has a prefix of the pieces.
pub fn print<E: Sink>(pieces: &[Piece<'_>], say: &mut E) -> Result<(), Failed>
    ensures { Wrote result (spelled pieces.now) (E.told say.old) (E.told say.new) }
{
    for piece in pieces {
        piece.say(say)?;
    }
    Ok(())
}
