//! Where things stand in an object.
ghost use Rattle.std.specs.Prelude.{◌≡◌, ◌+◌, ◌≤◌, length};
ghost use Rattle.object_parts.specs.Placed.{span_between, span_before};
ghost use Rattle.object_parts.specs.Sections.{bytes_in};

use wasm_grammar::place;
use wl_base::Span;

/// The bytes from here on up to there, by the place of the end of both.
pub fn span_between(end: usize, from: &[u8], to: &[u8]) -> Span
    ensures { result ≡ span_between end from.now to.now }
{
    Span {
        start: place(end, from) as u64,
        len: from.len().saturating_sub(to.len()) as u64,
    }
}

/// So many bytes that end where the rest begins, by the place of the end.
pub fn span_before(end: usize, len: usize, rest: &[u8]) -> Span
    ensures { result ≡ span_before end len rest.now }
{
    Span {
        start: place(end, rest).saturating_sub(len) as u64,
        len: len as u64,
    }
}

/// The bytes of a span that lies in them.
pub fn bytes_in(bytes: &[u8], span: Span) -> &[u8]
    requires { span.start + span.len ≤ length bytes.now }
    ensures { result.now ≡ bytes_in bytes.now span }
{
    &bytes[span.start as usize..][..span.len as usize]
}
