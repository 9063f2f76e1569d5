//! The sources, each behind what leads to it.
ghost use Rattle.std.specs.Prelude.{◌≡◌, ◌+◌, ◌≤◌, ◌<◌, ◌-◌, ◌^◌, ◌∷◌, ◌++◌, [], length, map, take, drop, replicate, slice_index_or};
ghost use Rattle.image_emit.specs.Bytes.{sized, source_bytes, block_of, data_bytes, tree_of};
ghost use Rattle.image_emit.specs.Pieces.{data_head, pieces};
ghost use Rattle.image_emit.specs.Parts.{block_piece, piece_at, gapped, no_piece};
ghost use Rattle.image_emit.specs.Put.{IsPut, HasRoom};
ghost use Rattle.image_emit.specs.Sizes.{data_len};

use crate::put::{Put, plus, put_byte, put_bytes, put_number, put_sized, u32_size};
use crate::sizes::data_size;
use crate::{Image, PlacedSource, Source};
use wasm_types::ConstExpr;
use wl_base::{Seq, Span};

/// Writes the source of this number, the bodies before the blocks, behind what leads to it.
pub fn put_piece(image: &Image, files: &[Seq<u8>], job: usize, at: usize, out: &mut [u8]) -> usize
    requires size { length (data_bytes (map (block_of files.now) image.now.blocks)) ≡ data_len image.now.blocks }
    requires short { data_len image.now.blocks < 2 ^ 31 }
    requires job { job < length image.now.bodies + length image.now.blocks }
    requires room { HasRoom out.old at (piece_at (tree_of files.now image.now) job) }
    ensures { IsPut out.old at (piece_at (tree_of files.now image.now) job) result out.new }
{
    let bodies = image.bodies.as_slice();
    if job < bodies.len() {
        return put_sized(bytes_of_source(files, &bodies[job]), at, out);
    }
    let blocks = image.blocks.as_slice();
    let block = job - bodies.len();
    put_block(&image.data_offset, blocks, files, block, at, out)
}

/// The bytes of the source of this number.
pub fn bytes_at<'a>(image: &'a Image, files: &'a [Seq<u8>], job: usize) -> &'a [u8]
    requires { job < length image.now.bodies + length image.now.blocks }
    ensures { result.now ≡ (slice_index_or (pieces (tree_of files.now image.now)) job no_piece).bytes }
{
    let bodies = image.bodies.as_slice();
    if job < bodies.len() {
        return bytes_of_source(files, &bodies[job]);
    }
    bytes_of_source(files, &image.blocks.as_slice()[job - bodies.len()].source)
}

// Writes a block behind the head of the data section or a gap.
fn put_block(
    offset: &ConstExpr,
    blocks: &[PlacedSource],
    files: &[Seq<u8>],
    block: usize,
    at: usize,
    out: &mut [u8],
) -> usize
    requires size { length (data_bytes (map (block_of files.now) blocks.now)) ≡ data_len blocks.now }
    requires short { data_len blocks.now < 2 ^ 31 }
    requires block { block < length blocks.now }
    requires room { HasRoom out.old at (block_piece offset.now (map (block_of files.now) blocks.now) block) }
    ensures { IsPut out.old at (block_piece offset.now (map (block_of files.now) blocks.now) block) result out.new }
{
    if block == 0 {
        put_first(offset, blocks, files, at, out)
    } else {
        put_gapped(files, &blocks[block - 1], &blocks[block], at, out)
    }
}

// Writes the first block behind the head of the data section.
fn put_first(
    offset: &ConstExpr,
    blocks: &[PlacedSource],
    files: &[Seq<u8>],
    at: usize,
    out: &mut [u8],
) -> usize
    requires size { length (data_bytes (map (block_of files.now) blocks.now)) ≡ data_len blocks.now }
    requires short { data_len blocks.now < 2 ^ 31 }
    requires some { 0 < length blocks.now }
    requires room { HasRoom out.old at (block_piece offset.now (map (block_of files.now) blocks.now) 0) }
    ensures { IsPut out.old at (block_piece offset.now (map (block_of files.now) blocks.now) 0) result out.new }
{
    let at = put_data_head(offset, blocks, files, at, out);
    put_bytes(bytes_of_source(files, &blocks[0].source), at, out)
}

// Writes a block behind the zeros from the end of the one before it.
fn put_gapped(
    files: &[Seq<u8>],
    before: &PlacedSource,
    here: &PlacedSource,
    at: usize,
    out: &mut [u8],
) -> usize
    requires { HasRoom out.old at (gapped (block_of files.now before.now) (block_of files.now here.now)) }
    ensures { IsPut out.old at (gapped (block_of files.now before.now) (block_of files.now here.now)) result out.new }
{
    let len = bytes_of_source(files, &before.source).len() as u64;
    let end = u64::from(before.address) + len;
    let gap = u64::from(here.address).saturating_sub(end);
    let at = put_zeros(gap as usize, at, out);
    put_bytes(bytes_of_source(files, &here.source), at, out)
}

// Writes the head of the data section.
fn put_data_head(
    offset: &ConstExpr,
    blocks: &[PlacedSource],
    files: &[Seq<u8>],
    at: usize,
    out: &mut [u8],
) -> usize
    requires size { length (data_bytes (map (block_of files.now) blocks.now)) ≡ data_len blocks.now }
    requires short { data_len blocks.now < 2 ^ 31 }
    requires room { HasRoom out.old at (data_head offset.now (data_bytes (map (block_of files.now) blocks.now))) }
    ensures { IsPut out.old at (data_head offset.now (data_bytes (map (block_of files.now) blocks.now))) result out.new }
{
    let size = data_size(blocks);
    let payload = 2 + offset.size() + u32_size(size) + size;
    let at = put_byte(11, at, out);
    let at = put_number(payload as u32, at, out);
    let at = put_byte(1, at, out);
    let at = put_byte(0, at, out);
    let at = offset.put(at, out);
    put_number(size as u32, at, out)
}

// Writes so many zeros.
fn put_zeros(count: usize, at: usize, out: &mut [u8]) -> usize
    requires { HasRoom out.old at (replicate count 0) }
    ensures { IsPut out.old at (replicate count 0) result out.new }
{
    let end = at + count;
    out[at..end].fill(0);
    end
}

/// The bytes of a source. A part that runs past the end of its file is cut there.
pub fn bytes_of_source<'a>(files: &'a [Seq<u8>], source: &'a Source) -> &'a [u8]
    ensures { result.now ≡ source_bytes files.now source.now }
{
    match source {
        Source::File(part) => match files.get(part.file as usize) {
            Some(file) => cut(file.as_slice(), part.span),
            None => &[],
        },
        Source::Own(bytes) => bytes.as_slice(),
    }
}

fn cut(bytes: &[u8], span: Span) -> &[u8]
    ensures { result.now ≡ take span.len (drop span.start bytes.now) }
{
    let start = bytes.len().min(span.start as usize);
    let rest = &bytes[start..];
    &rest[..rest.len().min(span.len as usize)]
}
