//! A text in pieces: a script in lines, a line in words, a write in its two sides.
ghost use Rattle.std.specs.Prelude.{◌≡◌, ◌<◌, ◌∷◌, [], IfOk, IfSome, MatchOption, length, map};
ghost use Rattle.run_script.specs.Cut.{cut, place_of};

use std::alloc::Global;
use wl_base::OutOfMemory;

/// The pieces of a text between bytes of this value; without one the text is one piece.
///
/// # Errors
/// Want of memory.
pub fn cut<'a>(alloc: Global, at: u8, text: &'a [u8]) -> Result<Vec<&'a [u8]>, OutOfMemory>
    ensures { IfOk result (λ pieces. map (λ p. p.now) pieces.items ≡ cut at text.entry.now) }
{
    let mut pieces = Vec::new(alloc);
    let mut rest = text;
    while let Some((piece, after)) = parted(at, rest) {
        pieces.push(piece)?;
        rest = after;
    }
    pieces.push(rest)?;
    Ok(pieces)
}

// What stands before the first such byte, and what behind it.
#[tactic(auto, using(crate::proofs::Cut::at_byte, crate::proofs::Cut::at_end))]
fn parted(at: u8, text: &[u8]) -> Option<(&[u8], &[u8])>
    ensures is { MatchOption result (cut at text.entry.now ≡ text.entry.now ∷ []) (λ p. cut at text.entry.now ≡ p.0.now ∷ cut at p.1.now) }
    ensures shorter { IfSome result (λ p. length p.1.now < length text.entry.now) }
{
    match place_of(at, text) {
        None => None,
        Some(k) => Some((&text[..k], &text[k + 1..])),
    }
}

fn place_of(at: u8, text: &[u8]) -> Option<usize>
    ensures is { result ≡ place_of at text.now }
    ensures within { IfSome result (λ k. k < length text.now) }
{
    text.iter().position(|b| *b == at)
}
