//! Bytes of files.
ghost use Rattle.std.specs.Prelude.{◌≡◌, take, drop};
ghost use Rattle.image_emit.specs.Bytes.{file_part};

use wl_base::{FileSpan, Seq, Span};

/// The bytes of a part of a file. One that runs past the end of its file is cut there.
pub fn bytes_in<'a>(files: &'a [Seq<u8>], place: FileSpan) -> &'a [u8]
    ensures { result.now ≡ file_part files.now place }
{
    match files.get(place.file as usize) {
        Some(file) => cut(file.as_slice(), place.span),
        None => &[],
    }
}

fn cut(bytes: &[u8], span: Span) -> &[u8]
    ensures { result.now ≡ take span.len (drop span.start bytes.now) }
{
    let start = bytes.len().min(span.start as usize);
    let rest = &bytes[start..];
    &rest[..rest.len().min(span.len as usize)]
}
