//! An image is measured, and written by workers.

use image_emit::{Image, emit, lie_in, measure};
use std::alloc::Global;
use std::thread::Threads;
use wl_base::Seq;
use wl_fan::Workers;
use wl_outside::Gate;

/// The bytes of an image, written by so many workers, where its parts lie in the files. A byte that no worker writes is AA.
pub fn emitted<G: Gate, R: Threads + Sync>(
    rt: &R,
    alloc: Global,
    image: &Image,
    files: &[Seq<u8>],
    workers: u32,
    gate: &G,
) -> Option<Vec<u8>> {
    let workers = Workers::new(workers)?;
    if !lie_in(files, image) {
        return None;
    }
    let Ok(m) = measure(alloc, image) else {
        return None;
    };
    let mut out = vec![in alloc; 0xAAu8; m.len as usize].ok()?;
    emit(rt, image, &m, files, out.as_mut_slice(), workers, gate);
    Some(out)
}
