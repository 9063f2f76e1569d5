//! Spans in eight bytes.
ghost use Rattle.std.specs.Prelude.{◌≡◌, IfOk};
ghost use Rattle.object_columns.specs.Columns.{span_of};

use wl_base::{OutOfMemory, Span};

/// A run of bytes whose place and length are below 2^32.
#[derive(Clone, Copy, Debug)]
pub struct ShortSpan {
    start: u32,
    len: u32,
}

impl ShortSpan {
    /// The span, in short. A greater one is answered as want of memory: no object has one.
    pub fn of(span: Span) -> Result<ShortSpan, OutOfMemory>
        ensures { IfOk result (λ short. span_of short ≡ span) }
    {
        let (Ok(start), Ok(len)) = (u32::try_from(span.start), u32::try_from(span.len)) else {
            return Err(OutOfMemory);
        };
        Ok(ShortSpan { start, len })
    }

    /// The span.
    pub fn span(self) -> Span
        ensures { result ≡ span_of self }
    {
        Span {
            start: u64::from(self.start),
            len: u64::from(self.len),
        }
    }
}
