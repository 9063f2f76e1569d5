//! The parts of an object.

use body_windows::{Mismatch, Operands, RelocSection};
use linking_section::Linking;
use wasm_module::{ConstExpr, Element, Export, FuncType, GlobalType, Import};
use wl_base::{Seq, Span};

/// A defined global (Core 2.5.6).
#[derive(Clone, Copy, Debug, PartialEq, Eq)]
pub struct GlobalDef {
    /// The type of its value, and whether it can be set.
    pub kind: GlobalType,
    /// The first value.
    pub value: ConstExpr,
    /// Where the expression of the first value stands in the object.
    pub span: Span,
}

/// A function's body (Core 5.5.13).
#[derive(Debug, Drop)]
pub struct CodeBody {
    /// Where the body stands in the object, behind its size.
    pub span: Span,
    /// Its immediates that can be references, or why its relocations don't fit them. Places count
    /// from the body's first byte, those of faults from the payload's.
    pub windows: Result<Operands, Mismatch>,
}

/// An active data segment (Core 5.5.14). The offset isn't kept: in an object it is provisional.
#[derive(Clone, Copy, Debug, PartialEq, Eq)]
pub struct DataPart {
    /// The memory: `None` by the segment's flag 0, `Some` by flag 2.
    pub memory: Option<u32>,
    /// Where its bytes stand in the object.
    pub span: Span,
}

/// What the sections of an object tell. A section that doesn't stand there tells nothing.
#[derive(Debug, Drop)]
pub struct Parts {
    pub types: Seq<FuncType>,
    pub imports: Seq<Import>,
    /// The type index of each defined function.
    pub functions: Seq<u32>,
    pub globals: Seq<GlobalDef>,
    pub exports: Seq<Export>,
    pub elements: Seq<Element>,
    pub data_count: Option<u32>,
    pub bodies: Seq<CodeBody>,
    pub segments: Seq<DataPart>,
    /// The first section `linking`.
    pub linking: Option<Linking>,
    /// The sections `reloc.`, in file order. One whose target is a custom section has no entries
    /// here: it isn't read.
    pub relocs: Seq<RelocSection>,
    /// Whether there is no second section `linking`, and each section `reloc.` stands behind the
    /// first one (Linking.md).
    pub in_order: bool,
}
