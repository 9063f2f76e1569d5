//! How long the parts of an image are.
ghost use Rattle.std.specs.Prelude.{◌≡◌, ℕ, ◌+◌, ◌≤◌, [], length};
ghost use Rattle.image_emit.specs.Bytes.{custom_section, section, tree_of, const_expr};
ghost use Rattle.image_emit.specs.Pieces.{sections};
ghost use Rattle.image_emit.specs.Put.{capped};
ghost use Rattle.image_emit.specs.Sizes.{source_len, bodies_len, blocks_len, data_len, code_head_len, data_head_len};

use crate::put::{Put, plus, sized_size, u32_size, vector_size};
use crate::{Image, PlacedSource, Source};
use wasm_types::ConstExpr;
use wl_base::Seq;

/// The length of a section.
pub fn section_size<T: Put>(items: &[T]) -> u64
    ensures { (id : ℕ) → result ≡ capped (length (section id T.spelled items.now)) }
{
    if items.is_empty() {
        return 0;
    }
    let size = vector_size(items);
    plus(1 + u32_size(size), size)
}

fn custom_size(payload: &Option<Seq<u8>>) -> u64
    ensures { result ≡ capped (length (custom_section payload.now)) }
{
    match payload {
        None => 0,
        Some(payload) => plus(1, sized_size(payload.as_slice())),
    }
}

/// The length of what stands before the code section.
pub fn sections_size(image: &Image) -> u64
    ensures { result ≡ capped (length (sections (tree_of [] image.now))) }
{
    let size = plus(8, custom_size(&image.custom));
    let size = plus(size, section_size(image.types.as_slice()));
    let size = plus(size, section_size(image.imports.as_slice()));
    let size = plus(size, section_size(image.functions.as_slice()));
    let size = plus(size, section_size(image.tables.as_slice()));
    let size = plus(size, section_size(image.memories.as_slice()));
    let size = plus(size, section_size(image.globals.as_slice()));
    let size = plus(size, section_size(image.exports.as_slice()));
    plus(size, section_size(image.elements.as_slice()))
}

/// How many bytes a source has.
pub fn source_size(source: &Source) -> u64
    ensures { result ≡ source_len source.now }
{
    match source {
        Source::File(part) => part.span.len,
        Source::Own(bytes) => bytes.as_slice().len() as u64,
    }
}

/// The length of the bodies, each behind its size.
pub fn bodies_size(bodies: &[Source]) -> u64
    ensures { result ≡ capped (bodies_len bodies.now) }
{
    let mut size = 0;
    for body in bodies {
        let len = source_size(body);
        size = plus(size, plus(u32_size(len), len));
    }
    size
}

/// The length of the blocks of data, with what lies between them.
pub fn data_size(blocks: &[PlacedSource]) -> u64
    ensures { result ≡ capped (data_len blocks.now) }
{
    if blocks.is_empty() {
        return 0;
    }
    let mut size = 0;
    let mut at = u128::from(blocks[0].address);
    for block in blocks {
        let address = u128::from(block.address);
        let len = source_size(&block.source);
        size = plus(size, plus(address.saturating_sub(at) as u64, len));
        at = address + u128::from(len);
    }
    size
}

/// The length of the code section's head, with so many bodies of so many bytes.
pub fn code_head_size(count: usize, size: u64) -> u64
    ensures size { (len : ℕ) → size ≡ capped len → result ≡ code_head_len count len }
    ensures few { result ≤ 11 }
{
    if count == 0 {
        return 0;
    }
    let count = u32_size(count as u64);
    1 + u32_size(plus(count, size)) + count
}

/// The length of the data section's head, with so many blocks of so many bytes.
pub fn data_head_size(offset: &ConstExpr, count: usize, size: u64) -> u64
    ensures { (len : ℕ) → size ≡ capped len → result ≡ capped (data_head_len offset.now count len) }
{
    if count == 0 {
        return 0;
    }
    let lead = plus(2, offset.size());
    let count = u32_size(size);
    let payload = plus(lead, plus(count, size));
    plus(1 + u32_size(payload), plus(lead, count))
}
