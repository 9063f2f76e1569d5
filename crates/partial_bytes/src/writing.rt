//! The object's bytes.
ghost use Rattle.std.specs.Prelude.{◌≡◌, ◌<◌, ◌^◌, length, IfOk};
ghost use Rattle.partial_rules.specs.Relocatable.{relocatable_bytes};
ghost use Rattle.partial_bytes.specs.Measured.{IsMeasured};
ghost use Rattle.partial_bytes.specs.Pieces.{pieces_bytes, Fit};
ghost use Rattle.partial_bytes.specs.Told.{TreeFits, tree_told};

use crate::division::write;
use crate::laying::pieces_of;
use crate::measuring::Measured;
use crate::pieces::{Piece, starts_of};
use crate::tree::Tree;
use std::alloc::Global;
use std::thread::Threads;
use wl_base::{OutOfMemory, Seq};
use wl_fan::Workers;

/// No object has as many bytes.
const TOO_MANY: u64 = 1 << 31;

/// So many bytes.
fn room(alloc: Global, len: u64) -> Result<Vec<u8>, OutOfMemory>
    ensures { IfOk result (λ bytes. length bytes.items ≡ len) }
{
    Ok(vec![in alloc; 0u8; len as usize]?)
}

/// The bytes of pieces.
fn joined<R: Threads + Sync>(
    rt: &R,
    alloc: Global,
    pieces: &[Piece<'_>],
    workers: Workers,
) -> Result<Seq<u8>, OutOfMemory>
    requires { Fit pieces.now }
    ensures { IfOk result (λ bytes. bytes ≡ pieces_bytes pieces.now) }
{
    let placed = starts_of(alloc, pieces)?;
    if placed.1 >= TOO_MANY {
        return Err(OutOfMemory);
    }
    let mut bytes = room(alloc, placed.1)?;
    write(
        rt,
        pieces,
        placed.0.as_slice(),
        placed.1,
        workers,
        bytes.as_mut_slice(),
    );
    Ok(Seq::from_vec(bytes))
}

/// The bytes of an object that was measured, written by several workers: each has a run of bodies,
/// segments and relocations.
///
/// It asks that the windows of relocations lie in their parts. One of 2^31 bytes and more is
/// answered as want of memory.
pub fn written<R: Threads + Sync>(
    rt: &R,
    alloc: Global,
    tree: &Tree<'_>,
    m: &Measured,
    workers: Workers,
) -> Result<Seq<u8>, OutOfMemory>
    requires measured { IsMeasured tree.now m.now }
    requires fits { TreeFits tree.now }
    ensures { IfOk result (λ bytes. bytes ≡ relocatable_bytes (tree_told tree.now)) }
{
    let pieces = pieces_of(alloc, tree, m)?;
    let bytes = joined(rt, alloc, pieces.as_slice(), workers)?;
    Ok(bytes)
}
