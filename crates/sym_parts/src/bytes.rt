//! The bytes of parts.
ghost use Rattle.std.specs.Prelude.{◌≡◌, [], take, drop, slice_index_or};
ghost use Rattle.link_program.specs.image_emit.Bytes.{file_part};

use wl_base::{FileSpan, Seq};

/// The bytes of a file from a place on.
#[tactic(auto, using(crate::proofs::Fewer::dropped_less))]
fn from(bytes: &[u8], start: usize) -> &[u8]
    ensures { result.now ≡ drop start bytes.now }
{
    &bytes[start.min(bytes.len())..]
}

/// So many of the bytes, or all where there are fewer.
#[tactic(auto, using(crate::proofs::Fewer::taken_less))]
fn at_most(bytes: &[u8], len: usize) -> &[u8]
    ensures { result.now ≡ take len bytes.now }
{
    &bytes[..len.min(bytes.len())]
}

/// The file at a place.
#[tactic(auto, using(link_program::proofs::ReadAt::read))]
fn file_at(files: &[Seq<u8>], at: u32) -> &[u8]
    ensures { result.now ≡ slice_index_or files.now at [] }
{
    match files.get(at as usize) {
        Some(file) => file.as_slice(),
        None => &[],
    }
}

/// The bytes of a part of a file.
pub(crate) fn bytes_at(files: &[Seq<u8>], source: FileSpan) -> &[u8]
    ensures { result.now ≡ file_part files.now source }
{
    at_most(
        from(file_at(files, source.file), source.span.start as usize),
        source.span.len as usize,
    )
}
