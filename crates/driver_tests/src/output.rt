//! The length of the output and the places in it.

use image_emit::Image;
use link_output::measured;
use std::alloc::Global;
use std::test::Fail;
use test_images::{empty_image, own_block};
use wasm_types::ConstExpr;
use wl_base::{OutOfMemory, Seq};

// Four bytes of data at address 1024.
fn image_of(alloc: Global) -> Result<Image, OutOfMemory> {
    let mut image = empty_image(alloc);
    image.data_offset = ConstExpr::I32(1024);
    let bytes = b"\x01\x02\x03\x04".as_slice();
    image.blocks.push(own_block(alloc, 1024, bytes)?)?;
    Ok(image)
}

// The length, and the place of the one source.
fn lengths(alloc: Global) -> Option<(u64, u64)> {
    let Ok(image) = image_of(alloc) else {
        return None;
    };
    let files = Seq::new(alloc);
    if !image_emit::lie_in(files.as_slice(), &image) {
        return None;
    }
    match measured(alloc, files.as_slice(), &image) {
        Ok(m) => Some((m.len, *m.places.get(0)?)),
        Err(_) => None,
    }
}

#[test]
fn a_data_section_is_measured(rt: HostRuntime) -> Result<(), Fail> {
    // the header, then `0B 0B 01 00 41 80 08 0B 04` and the bytes
    assert_eq!(rt; lengths(rt.alloc()).ok_or("no length")?, (21, 17));
    Ok(())
}
