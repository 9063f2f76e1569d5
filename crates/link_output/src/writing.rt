//! One buffer for all of the output.
ghost use Rattle.std.specs.Prelude.{◌≡◌, Ok, IfOk, length};
ghost use Rattle.link_program.specs.reloc_apply.Windows.{filled};
ghost use Rattle.link_program.specs.reloc_apply.Apart.{AreApart};
ghost use Rattle.link_program.specs.image_emit.Bytes.{tree_of, bytes_of};
ghost use Rattle.link_program.specs.image_emit.Measures.{LieIn, image_measure};

use image_emit::{Image, Measured, emit};
use patch_pieces::{Pieces, fill};
use std::alloc::Global;
use std::thread::Threads;
use wl_base::{OutOfMemory, Seq};
use wl_fan::Workers;
use wl_outside::Gate;

/// The bytes of a measured image, with each patch written. The patches rise and don't overlap. The list has room for `more` bytes behind
/// them, so putting these there copies nothing.
///
/// Once the buffer is reserved nothing can want memory.
pub fn write<R: Threads + Sync, G: Gate>(
    rt: &R,
    alloc: Global,
    files: &[Seq<u8>],
    image: &Image,
    m: &Measured,
    patches: &Pieces,
    more: usize,
    workers: Workers,
    gate: &G,
) -> Result<Seq<u8>, OutOfMemory>
    requires measured { image_measure image.now ≡ Ok m.now }
    requires files { LieIn files.now image.now }
    requires apart { AreApart 0 (length (bytes_of (tree_of files.now image.now))) patches.now.patches }
    ensures is { IfOk result (λ bytes. bytes ≡ filled patches.now.patches (bytes_of (tree_of files.now image.now))) }
    ensures len { IfOk result (λ bytes. length bytes ≡ m.now.len) }
{
    let mut bytes = room(alloc, m.len, more)?;
    put(
        rt,
        files,
        image,
        m,
        patches,
        bytes.as_mut_slice(),
        workers,
        gate,
    );
    Ok(Seq::from_vec(bytes))
}

// Writes the image, and then each patch. It takes no memory.
fn put<R: Threads + Sync, G: Gate>(
    rt: &R,
    files: &[Seq<u8>],
    image: &Image,
    m: &Measured,
    patches: &Pieces,
    out: &mut [u8],
    workers: Workers,
    gate: &G,
)
    requires measured { image_measure image.now ≡ Ok m.now }
    requires files { LieIn files.now image.now }
    requires room { length out.old ≡ m.now.len }
    requires apart { AreApart 0 (length (bytes_of (tree_of files.now image.now))) patches.now.patches }
    ensures bytes { out.new ≡ filled patches.now.patches (bytes_of (tree_of files.now image.now)) }
    ensures len { length out.new ≡ length out.old }
{
    emit(rt, image, m, files, out, workers, gate);
    fill(rt, patches, out, workers, gate);
}

// The buffer, with so many bytes, and with room for more.
fn room(alloc: Global, len: u64, more: usize) -> Result<Vec<u8>, OutOfMemory>
    ensures { IfOk result (λ bytes. length bytes.items ≡ len) }
{
    let len = len as usize;
    let mut bytes = Vec::with_capacity(alloc, len.saturating_add(more))?;
    bytes.resize(len, 0)?;
    Ok(bytes)
}
