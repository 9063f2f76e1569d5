//! The live data segments.
ghost use Rattle.std.specs.Prelude.{◌≡◌, ◌==◌, [], map, take, drop, slice_index_or, IfOk};
ghost use Rattle.std.specs.List.{list_all};
ghost use Rattle.link_program.specs.image_emit.Bytes.{file_part};
ghost use Rattle.link_layout.specs.Segments.{segment_numbers, align_of, shape_at, shape_by};

use link_program::{Content, Named, Part, Tables, part_at, row_at};
use mark_bits::kinds as chunk_kinds;
use memory_layout::SegmentShape;
use std::alloc::Global;
use wl_base::{FileSpan, OutOfMemory, Seq};

/// The numbers of the live data segments.
pub(crate) fn segment_numbers(
    alloc: Global,
    tables: &Tables,
    live: &[u32],
) -> Result<Vec<u32>, OutOfMemory>
    ensures { IfOk result (λ numbers. numbers.items ≡ segment_numbers tables.now live.now) }
{
    let mut numbers = Vec::new(alloc);
    for number in live {
        if part_at(tables, *number).chunk.kind == chunk_kinds::SEGMENT {
            numbers.push(*number)?;
        }
    }
    Ok(numbers)
}

/// The bytes of a file from a place on.
#[tactic(auto, using(crate::proofs::Fewer::dropped_less))]
fn from(bytes: &[u8], start: usize) -> &[u8]
    ensures { result.now ≡ drop start bytes.now }
{
    &bytes[start.min(bytes.len())..]
}

/// So many of the bytes, or all where there are fewer.
#[tactic(auto, using(crate::proofs::Fewer::taken_less))]
fn at_most(bytes: &[u8], len: usize) -> &[u8]
    ensures { result.now ≡ take len bytes.now }
{
    &bytes[..len.min(bytes.len())]
}

/// The file at a place.
#[tactic(auto, using(link_program::proofs::ReadAt::read))]
fn file_at(files: &[Seq<u8>], at: u32) -> &[u8]
    ensures { result.now ≡ slice_index_or files.now at [] }
{
    match files.get(at as usize) {
        Some(file) => file.as_slice(),
        None => &[],
    }
}

/// The bytes of a part of a file.
fn bytes_at(files: &[Seq<u8>], source: FileSpan) -> &[u8]
    ensures { result.now ≡ file_part files.now source }
{
    at_most(
        from(file_at(files, source.file), source.span.start as usize),
        source.span.len as usize,
    )
}

/// Whether all bytes are 0.
fn all_zero(bytes: &[u8]) -> bool
    ensures { result ≡ list_all (λ b. b == 0) bytes.now }
{
    bytes.iter().all(|byte| *byte == 0)
}

/// The exponent of a segment's alignment.
fn align_of(content: Content) -> u32
    ensures { result ≡ align_of content }
{
    match content {
        Content::Segment { align, flags: _ } => align,
        Content::Function(_) | Content::Global { kind: _, value: _ } | Content::Made => 0,
    }
}

/// What the place of a segment depends on. One of 2^32 bytes and more is answered as want of memory.
fn shape_by(files: &[Seq<u8>], part: Part, row: &[Named]) -> Result<SegmentShape, OutOfMemory>
    ensures { IfOk result (λ shape. shape ≡ shape_by files.now part row.now) }
{
    let Ok(len) = u32::try_from(part.source.span.len) else {
        return Err(OutOfMemory);
    };
    Ok(SegmentShape {
        len,
        align: align_of(part.content),
        zero: row.is_empty() && all_zero(bytes_at(files, part.source)),
    })
}

/// The shapes of these segments.
pub(crate) fn shapes_of(
    alloc: Global,
    tables: &Tables,
    files: &[Seq<u8>],
    numbers: &[u32],
) -> Result<Vec<SegmentShape>, OutOfMemory>
    ensures { IfOk result (λ shapes. shapes.items ≡ map (shape_at tables.now files.now) numbers.now) }
{
    let mut shapes = Vec::with_capacity(alloc, numbers.len())?;
    for number in numbers {
        shapes.push(shape_by(files, part_at(tables, *number), row_at(tables, *number))?)?;
    }
    Ok(shapes)
}
