//! An image is written and its windows are filled, by several workers.
use crate::apart::are_apart;
use image_emit::Image;
use reloc_apply::{Form, Patch, Patches, fill};
use std::alloc::Global;
use std::thread::Threads;
use test_images::{emitted, empty_image, file_part, own_block};
use wasm_types::ConstExpr;
use wl_base::{OutOfMemory, Seq};
use wl_fan::Workers;
use wl_outside::OpenGate;

// The image's bytes with these windows filled, where its parts lie in the files and the windows lie apart.
fn filled<R: Threads + Sync>(
    rt: &R,
    alloc: Global,
    image: &Image,
    files: &[Seq<u8>],
    patches: &Patches,
    workers: u32,
) -> Option<Vec<u8>> {
    let all = Workers::new(workers)?;
    let mut out = emitted(rt, alloc, image, files, workers, &OpenGate)?;
    if !are_apart(patches.patches.as_slice(), out.len()) {
        return None;
    }
    fill(rt, patches, out.as_mut_slice(), all, &OpenGate);
    Some(out)
}

// A body of a file, and two blocks of data with a gap of two bytes between them.
fn add_parts(alloc: Global, to: &mut Image) -> Result<(), OutOfMemory> {
    to.bodies.push(file_part(0, 1, 8))?;
    to.data_offset = ConstExpr::I32(1024);
    for (address, bytes) in [
        (1024u32, b"\0\0\0\0".as_slice()),
        (1030, b"\x01\x02\x03\0\0\0\0".as_slice()),
    ] {
        to.blocks.push(own_block(alloc, address, bytes)?)?;
    }
    Ok(())
}

// The call in the body, the first block as a whole, and the end of the second.
fn add_patches(to: &mut Seq<Patch>) -> Result<(), OutOfMemory> {
    let windows = [
        (14, Form::Unsigned5, 2),
        (29, Form::Word4, 258),
        (38, Form::Word4, 0xFFFF_FFFE),
    ];
    for (place, form, value) in windows {
        to.push(Patch { place, form, value })?;
    }
    Ok(())
}

// The file that the body is of.
fn add_file(alloc: Global, to: &mut Seq<Seq<u8>>) -> Result<(), OutOfMemory> {
    let file = Seq::from_slice(alloc, b"\xFF\0\x10\x80\x80\x80\x80\0\x0B\xFF".as_slice())?;
    to.push(file)
}

const FILLED: [u8; 42] =
    *b"\0asm\x01\0\0\0\x0A\x0A\x01\x08\0\x10\x82\x80\x80\x80\0\x0B\x0B\x14\x01\0\x41\x80\x08\x0B\x0D\x02\x01\0\0\0\0\x01\x02\x03\xFE\xFF\xFF\xFF";

// Whether so many workers give the bytes.
fn give<R: Threads + Sync>(
    rt: &R,
    alloc: Global,
    image: &Image,
    files: &[Seq<u8>],
    patches: &Patches,
    workers: u32,
) -> bool {
    match filled(rt, alloc, image, files, patches, workers) {
        Some(out) => out.as_slice() == FILLED.as_slice(),
        None => false,
    }
}

// Whether the image gives the bytes, whoever works.
fn gives<R: Threads + Sync>(rt: &R, alloc: Global, image: &Image, files: &[Seq<u8>]) -> bool {
    let mut patches = Seq::new(alloc);
    if add_patches(&mut patches).is_err() {
        return false;
    }
    let patches = Patches { patches };
    give(rt, alloc, image, files, &patches, 1)
        && give(rt, alloc, image, files, &patches, 2)
        && give(rt, alloc, image, files, &patches, 64)
}

fn gives_with_file<R: Threads + Sync>(rt: &R, alloc: Global, image: &Image) -> bool {
    let mut files = Seq::new(alloc);
    add_file(alloc, &mut files).is_ok() && gives(rt, alloc, image, files.as_slice())
}

fn is_filled<R: Threads + Sync>(rt: &R, alloc: Global) -> bool {
    let mut image = empty_image(alloc);
    add_parts(alloc, &mut image).is_ok() && gives_with_file(rt, alloc, &image)
}

#[test]
fn windows_are_filled_in_what_was_emitted(rt: HostRuntime) {
    assert!(rt; is_filled(&rt, rt.alloc()));
}
