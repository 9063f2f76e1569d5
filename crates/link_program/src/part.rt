//! The parts of which the output is made.

use mark_bits::Chunk;
use wasm_types::{ConstExpr, GlobalType};
use wl_base::FileSpan;

/// What a part is.
#[derive(Clone, Copy, Debug, PartialEq, Eq)]
pub enum Content {
    /// A function, by the number of its type.
    Function(u32),
    /// A data segment, by the exponent of its alignment and its flags (Linking.md, "Segment Info").
    Segment { align: u32, flags: u32 },
    /// A global, by its type and its first value.
    Global { kind: GlobalType, value: ConstExpr },
    /// The linker's own.
    Made,
}

/// A kept part: a chunk of an object or of the linker, and its bytes in a file, which globals and the linker's parts have not.
#[derive(Clone, Copy, Debug, PartialEq, Eq)]
pub struct Part {
    pub chunk: Chunk,
    pub content: Content,
    pub source: FileSpan,
}
