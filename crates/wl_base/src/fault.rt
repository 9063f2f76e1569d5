//! Why a link is refused.

use crate::{Item, Name};
use thiserror::Error;

/// The precedence number of an input: its place among all objects and library members, from 1. The
/// linker itself is 0.
pub type InputId = u32;

/// The part of an object that is broken.
#[derive(Clone, Copy, Debug, PartialEq, Eq)]
pub enum Part {
    /// The header, or how the file is cut into sections.
    Frame,
    /// The payload of the section at this place, counted from 0 over all sections.
    Section(u32),
    /// The cross rule of this number: the sections are whole and disagree.
    Cross(u8),
}

/// Why a file is no library that can be read.
#[derive(Clone, Copy, Debug, PartialEq, Eq, Error)]
pub enum LibFault {
    /// It begins with neither magic.
    #[error("not a library")]
    NotLibrary,
    /// It is a thin library, whose members are other files.
    #[error("a thin library")]
    Thin,
    /// The member's header at this place is broken, or the member runs past the end.
    #[error("a bad member header at {0}")]
    BadHeader(u64),
    /// It has members and no symbol index.
    #[error("no symbol index")]
    NoIndex,
    /// The index is broken: 1 shorter than its count asks, 2 a place that is no member's, 3 too few names.
    #[error("a bad symbol index ({0})")]
    BadIndex(u8),
}

/// The number that passes its limit.
#[derive(Clone, Copy, Debug, PartialEq, Eq)]
pub enum What {
    /// The end of a data segment.
    DataEnd,
    /// Where the heap begins.
    HeapBase,
    /// The memory's bytes, against the greatest size that was asked for.
    MaxMemory,
    /// The end of the table's slots.
    TableSize,
    /// The output's length.
    OutputLength,
    /// The value of a reference.
    Reference,
}

/// The part of a module that isn't valid.
#[derive(Clone, Copy, Debug, PartialEq, Eq)]
pub enum InvalidAt {
    /// A rule that isn't one body's: an index outside the bodies, limits, a constant expression, a
    /// segment or an export.
    Module,
    /// The body of the function of this number among all functions, imported ones first.
    Body(u32),
}

/// What forbids that an object uses a feature, or lacks it.
#[derive(Clone, Copy, Debug, PartialEq, Eq)]
pub enum FeatureRule {
    /// It uses the feature, and an object disallows it.
    Disallowed,
    /// It doesn't use the feature, and an object requires it.
    Required,
    /// It uses the feature, which isn't among those that the words allow.
    NotAllowed,
}

/// Why a link is refused: the first of these that applies, in this order.
#[derive(Debug, PartialEq, Eq, Drop)]
pub enum Fault {
    /// The files have 2^32 bytes or more together; `len` is their sum, or 2^64 - 1 where that is greater.
    TooMuchInput {
        len: u64,
    },
    /// The file at this place among the input words is no library that can be read.
    Library {
        file: u32,
        fault: LibFault,
    },
    /// There are 2^20 objects and library members or more.
    TooManyInputs {
        count: u64,
    },
    /// An object has more than 2^30 bytes.
    TooLong {
        input: InputId,
        len: u64,
    },
    /// An object is broken.
    Malformed {
        input: InputId,
        part: Part,
    },
    /// An object has an item that isn't linked.
    Unsupported {
        input: InputId,
        item: Item,
    },
    /// A library's index gives the name for a member that doesn't define it.
    IndexLies {
        input: InputId,
        name: Name,
    },
    /// There are more than 2^24 different names.
    TooManyNames,
    /// Two symbols of one name differ in kind, type or import.
    Clash {
        name: Name,
        first: InputId,
        other: InputId,
    },
    /// A name has two strong definitions, or is exported twice.
    Duplicate {
        name: Name,
        first: InputId,
        other: InputId,
    },
    /// A relocation of this type needs a fixed address in position-independent output.
    NotPic {
        input: InputId,
        symbol: u32,
        kind: u8,
    },
    /// A name that is needed has no definition; input 0 is the command line.
    Unresolved {
        name: Name,
        input: InputId,
    },
    /// A number passes its limit.
    Overflow {
        what: What,
        needed: i64,
    },
    /// The output isn't valid by the rules of the standard (Core 3).
    Invalid {
        at: InvalidAt,
    },
    /// The relocations of the debug section at this place among the object's sections are broken. Judged
    /// with `--keep-debug` alone.
    BadDebug {
        input: InputId,
        section: u32,
    },
    /// The output has more than 2^31 - 1 bytes with the sections behind it (debug sections, features, names), which need
    /// `needed`.
    DebugTooLong {
        needed: u64,
    },
    /// The file at this place among the input words is a library or lazy, and the link is partial.
    NotPartial {
        file: u32,
    },
    /// The object of a partial link has more than 2^30 bytes.
    PartialTooLong {
        needed: u64,
    },
    /// Nothing calls `__wasm_call_ctors`, and something would be lost. Judged where the link is like lld's, which
    /// then wraps exported functions.
    Uncalled,
    /// An object goes against what the object `by` says of a feature; input 0 is the command line. Judged where
    /// the link is like lld's.
    Feature {
        name: Name,
        input: InputId,
        by: InputId,
        rule: FeatureRule,
    },
}
