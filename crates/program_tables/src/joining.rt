//! Pieces that are joined to one list of parts.
ghost use Rattle.std.specs.Prelude.{◌≡◌, ◌<◌, ℕ, [], false, map, flat_map, length, slice_get, Some, IfOk, IsTrue};
ghost use Rattle.program_tables.specs.declared.pieces.Piece.{Piece as OnePiece};

use crate::pieces::Piece;
use link_program::{Named, Part};
use std::alloc::Global;
use wl_base::{OutOfMemory, Seq};
use wl_lists::Lists;
use wl_rows::Rows;

/// Parts, and by part what it names.
#[derive(Drop)]
pub(crate) struct Joined {
    pub(crate) parts: Seq<Part>,
    pub(crate) named: Rows<Named>,
}

/// Whether no piece is short.
pub(crate) fn are_whole(pieces: &[Piece]) -> bool
    ensures { IsTrue result → (k : ℕ) (p : OnePiece) → slice_get pieces.now k ≡ Some p → p.is_short ≡ false }
{
    for piece in pieces {
        if piece.is_short {
            return false;
        }
    }
    true
}

/// What pieces have, one behind another.
pub(crate) fn put_together(alloc: Global, pieces: Vec<Piece>) -> Result<Joined, OutOfMemory>
    ensures parts { IfOk result (λ j. j.parts ≡ flat_map (λ p. p.parts) pieces.items) }
    ensures named { IfOk result (λ j. j.named ≡ flat_map (λ p. p.named) pieces.items) }
{
    let mut left = pieces.into_iter();
    let Some(first) = left.next() else {
        return Ok(Joined {
            parts: Seq::new(alloc),
            named: Rows::of(alloc, Lists::new(alloc)),
        });
    };
    let Piece { parts, named, .. } = first;
    let mut parts = parts;
    let mut named = Rows::of(alloc, named.shrunk());
    while let Some(piece) = left.next() {
        let Piece {
            parts: more,
            named: rows,
            ..
        } = piece;
        parts.extend_from_slice(more.as_slice())?;
        named.push(rows.shrunk())?;
    }
    Ok(Joined { parts, named })
}
