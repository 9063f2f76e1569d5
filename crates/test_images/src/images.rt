//! The image of nothing, and what it is filled with.

use image_emit::{Image, PlacedSource, Source};
use std::alloc::Global;
use wasm_types::ConstExpr;
use wl_base::{FileSpan, OutOfMemory, Seq, Span};

/// An image without sections, whose data would begin at address 0.
pub fn empty_image(alloc: Global) -> Image {
    Image {
        custom: None,
        types: Seq::new(alloc),
        imports: Seq::new(alloc),
        functions: Seq::new(alloc),
        tables: Seq::new(alloc),
        memories: Seq::new(alloc),
        globals: Seq::new(alloc),
        exports: Seq::new(alloc),
        elements: Seq::new(alloc),
        bodies: Seq::new(alloc),
        data_offset: ConstExpr::I32(0),
        blocks: Seq::new(alloc),
    }
}

/// A part of a file.
pub fn file_part(file: u32, start: u64, len: u64) -> Source {
    Source::File(FileSpan {
        file,
        span: Span { start, len },
    })
}

/// A block of data at this address, with bytes of its own.
pub fn own_block(alloc: Global, address: u32, bytes: &[u8]) -> Result<PlacedSource, OutOfMemory> {
    let own = Seq::from_slice(alloc, bytes)?;
    Ok(PlacedSource {
        address,
        source: Source::Own(own),
    })
}
