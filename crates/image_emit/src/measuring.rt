//! How long an image is.
ghost use Rattle.std.specs.Prelude.{◌≡◌, ◌+◌, ◌<◌, ◌≤◌, ◌^◌, ◌++◌, [], length, OnOk, IfOk};
ghost use Rattle.wasm_module.specs.wasm_instr.wl_base.Answers.{Answers};
ghost use Rattle.image_emit.specs.Bytes.{tree_of};
ghost use Rattle.image_emit.specs.Measures.{image_measure};
ghost use Rattle.image_emit.specs.Pieces.{sections};
ghost use Rattle.image_emit.specs.Put.{capped};
ghost use Rattle.image_emit.specs.Sizes.{bodies_len, blocks_len, data_len, body_places, block_places, data_places, image_len, front_len, image_data_head, image_places, image_code};

use crate::put::{plus, u32_size};
use crate::sizes::{
    bodies_size, code_head_size, data_head_size, data_size, sections_size, source_size,
};
use crate::{Image, PlacedSource, Source};
use std::alloc::Global;
use wl_base::{LayoutError, OutOfMemory, Seq, Span, What};

/// The length of an image's bytes, and where the code and the bytes of each source stand in them.
#[derive(Debug, Drop)]
pub struct Measured {
    pub len: u64,
    /// The payload of the code section, from the count of its bodies on (Core 5.5.13), or none where there is no body and so no
    /// such section. Debugging information counts its addresses from there.
    pub code: Option<Span>,
    /// One place for each source in the order of the output: the bodies, then the blocks.
    pub places: Seq<u64>,
}

/// The longest module is 2^31 - 1 bytes.
const LONGEST: u64 = 0x7FFF_FFFF;

/// The exact length of an image and the places of its sources, where each part of a file has as many bytes as its span says.
///
/// # Errors
///
/// `Overflow` with `OutputLength` exactly where the length is above 2^31 - 1; it is told as far as an i64 holds it.
/// `OutOfMemory`.
#[tactic(auto, using(crate::proofs::Lengths::blank_measure))]
pub fn measure(alloc: Global, image: &Image) -> Result<Measured, LayoutError>
    ensures { Answers result (image_measure image.now) }
{
    let lengths = lengths_of(image);
    let len = lengths.all;
    if len > LONGEST {
        let needed = len.min(i64::MAX as u64) as i64;
        return Err(LayoutError::Overflow {
            what: What::OutputLength,
            needed,
        });
    }
    let code = code_place(image, lengths.sections, lengths.bodies);
    let places = source_places(alloc, image, lengths.front, lengths.data_head)?;
    Ok(Measured { len, code, places })
}

// Lengths in an image, as far as 64 bits hold them.
#[derive(Clone, Copy)]
struct Lengths {
    all: u64,
    // the sections before the code section
    sections: u64,
    // the bodies, each behind its size
    bodies: u64,
    // what stands before the first body
    front: u64,
    // what stands between the bodies and the first block
    data_head: u64,
}

fn lengths_of(image: &Image) -> Lengths
    ensures all { result.all ≡ capped (image_len image.now) }
    ensures parts { (result.sections ≡ capped (length (sections (tree_of [] image.now)))) × (result.bodies ≡ capped (bodies_len image.now.bodies)) }
    ensures heads { (result.front ≡ capped (front_len image.now)) × (result.data_head ≡ capped (image_data_head image.now)) }
{
    let bodies = bodies_size(image.bodies.as_slice());
    let code_head = code_head_size(image.bodies.len(), bodies);
    let sections = sections_size(image);
    let front = plus(sections, code_head);
    let data = data_size(image.blocks.as_slice());
    let data_head = data_head_size(&image.data_offset, image.blocks.len(), data);
    Lengths {
        all: plus(plus(front, bodies), plus(data_head, data)),
        sections,
        bodies,
        front,
        data_head,
    }
}

// Where the payload of the code section stands in an image that isn't too long, whose other sections before it and whose bodies
// take so many bytes.
#[tactic(auto, unfolding(crate::specs::Sizes::image_code))]
fn code_place(image: &Image, before: u64, bodies: u64) -> Option<Span>
    requires short { image_len image.now < 2 ^ 31 }
    requires parts { (before ≡ length (sections (tree_of [] image.now))) × (bodies ≡ bodies_len image.now.bodies) }
    ensures { result ≡ image_code image.now }
{
    if image.bodies.is_empty() {
        return None;
    }
    let len = u32_size(image.bodies.len() as u64) + bodies;
    Some(Span {
        start: before + 1 + u32_size(len),
        len,
    })
}

// Where each source of an image begins that isn't too long.
fn source_places(
    alloc: Global,
    image: &Image,
    front: u64,
    data_head: u64,
) -> Result<Seq<u64>, OutOfMemory>
    requires short { image_len image.now < 2 ^ 31 }
    requires heads { (front ≡ front_len image.now) × (data_head ≡ image_data_head image.now) }
    ensures { IfOk result (λ places. places ≡ image_places image.now) }
{
    let mut places = Seq::new(alloc);
    let end = add_bodies(front, image.bodies.as_slice(), &mut places)?;
    add_data(end + data_head, image.blocks.as_slice(), &mut places)?;
    Ok(places)
}

// Adds the places of the bodies from a place on, and tells where they end.
fn add_bodies(at: u64, bodies: &[Source], places: &mut Seq<u64>) -> Result<u64, OutOfMemory>
    requires { at + bodies_len bodies.now < 2 ^ 32 }
    ensures places { OnOk result (places.new ≡ places.old ++ body_places at bodies.now) }
    ensures end { IfOk result (λ end. end ≡ at + bodies_len bodies.now) }
{
    let mut at = at;
    for body in bodies {
        let len = source_size(body);
        at += u32_size(len);
        places.push(at)?;
        at += len;
    }
    Ok(at)
}

// Adds the places of the blocks, the first of which stands at a place.
fn add_data(at: u64, blocks: &[PlacedSource], places: &mut Seq<u64>) -> Result<(), OutOfMemory>
    requires { at + data_len blocks.now < 2 ^ 32 }
    ensures { OnOk result (places.new ≡ places.old ++ data_places at blocks.now) }
{
    if blocks.is_empty() {
        return Ok(());
    }
    let mut at = at;
    let mut address = u64::from(blocks[0].address);
    for block in blocks {
        let begin = u64::from(block.address);
        let len = source_size(&block.source);
        at += begin.saturating_sub(address);
        places.push(at)?;
        at += len;
        address = begin + len;
    }
    Ok(())
}
