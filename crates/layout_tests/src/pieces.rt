//! Windows in several pieces that are filled on real threads.
ghost use Rattle.std.specs.Prelude.{◌≡◌, ◌≤◌, length, IfOk};

use crate::apart::are_apart;
use patch_pieces::{Pieces, fill};
use reloc_apply::{Form, Patch, Patches};
use std::alloc::Global;
use std::test::Fail;
use std::thread::Threads;
use wl_base::{OutOfMemory, Seq};
use wl_fan::Workers;
use wl_outside::OpenGate;

fn piece(alloc: Global, patches: &[Patch]) -> Result<Patches, OutOfMemory>
    ensures { IfOk result (λ piece. piece.patches ≡ patches.now) }
{
    let patches = Seq::from_slice(alloc, patches)?;
    Ok(Patches { patches })
}

// So many of the patches in a piece, those behind them in another one, and none in a last one.
#[tactic(auto, using(crate::proofs::Checks::three_pieces))]
fn in_pieces(alloc: Global, patches: &[Patch], first: usize) -> Result<Pieces, OutOfMemory>
    requires { first ≤ length patches.now }
    ensures { IfOk result (λ pieces. pieces.patches ≡ patches.now) }
{
    let (front, back) = patches.split_at(first);
    let mut pieces = Pieces::of(alloc, piece(alloc, front)?)?;
    pieces.push(piece(alloc, back)?)?;
    pieces.push(piece(alloc, &[])?)?;
    Ok(pieces)
}

// So many bytes FF with these windows filled, where they lie apart.
fn filled<R: Threads + Sync>(
    rt: &R,
    alloc: Global,
    patches: &[Patch],
    first: usize,
    len: usize,
    workers: u32,
) -> Option<Vec<u8>> {
    let workers = Workers::new(workers)?;
    let mut out = vec![in alloc; 0xffu8; len].ok()?;
    if first > patches.len() || !are_apart(patches, out.len()) {
        return None;
    }
    let pieces = in_pieces(alloc, patches, first).ok()?;
    fill(rt, &pieces, out.as_mut_slice(), workers, &OpenGate);
    Some(out)
}

fn patch(place: u64, form: Form, value: u32) -> Patch {
    Patch { place, form, value }
}

// Whether the windows are filled so, wherever they are cut into pieces.
fn are_filled<R: Threads + Sync>(rt: &R, alloc: Global, workers: u32) -> bool {
    let patches = [
        patch(1, Form::Unsigned5, 1),
        patch(6, Form::Signed5, 0x8000_0000),
        patch(12, Form::Word4, 258),
    ];
    let bytes = b"\xff\x81\x80\x80\x80\x00\x80\x80\x80\x80\x78\xff\x02\x01\x00\x00\xff".as_slice();
    for first in 0..4 {
        match filled(rt, alloc, &patches, first, bytes.len(), workers) {
            Some(out) => {
                if out.as_slice() != bytes {
                    return false;
                }
            }
            None => return false,
        }
    }
    true
}

#[test]
fn windows_in_pieces_are_filled(rt: HostRuntime) -> Result<(), Fail> {
    for workers in [1, 2, 64] {
        let filled = are_filled(&rt, rt.alloc(), workers);
        assert!(rt; filled, "by {workers}");
    }
    Ok(())
}
