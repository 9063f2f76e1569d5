//! Globals, exports, element and data segments (Core 2.5.6, 2.5.10, 2.5.7 and 2.5.8).

use wasm_types::{ConstExpr, GlobalType};
use wl_base::{Name, Seq};

/// A defined global with its first value (Core 2.5.6).
#[derive(Clone, Copy, Debug, PartialEq, Eq)]
pub struct ModuleGlobal {
    /// The type of its value, and whether it can be set.
    pub kind: GlobalType,
    /// The first value.
    pub value: ConstExpr,
}

/// An export (Core 2.5.10).
#[derive(Debug, PartialEq, Eq, Drop)]
pub struct Export {
    /// The name that the outside knows it by. No two exports of a module have the same.
    pub name: Name,
    /// What is exported, one of [`crate::export_kinds`].
    pub kind: u8,
    /// The place of what is exported among those of its kind, imports first.
    pub index: u32,
}

/// An active element segment of functions (Core 2.5.7).
#[derive(Debug, PartialEq, Eq, Drop)]
pub struct Element {
    /// The table: `None` is table 0, by the segment's flag 0, and `Some` names it, by flag 2 (Core 5.5.12).
    pub table: Option<u32>,
    /// The slot of the first function.
    pub offset: ConstExpr,
    /// The functions that the slots from there on hold, by their places among all functions, imports first.
    pub functions: Seq<u32>,
}

/// An active data segment (Core 2.5.8).
#[derive(Debug, PartialEq, Eq, Drop)]
pub struct DataSegment {
    /// The memory: `None` is memory 0, by the segment's flag 0, and `Some` names it, by flag 2 (Core
    /// 5.5.14).
    pub memory: Option<u32>,
    /// The address of the first byte.
    pub offset: ConstExpr,
    /// The bytes that the memory holds from there on.
    pub bytes: Seq<u8>,
}
