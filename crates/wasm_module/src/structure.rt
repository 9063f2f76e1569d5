//! A module (Core 2.5).

use crate::parts::{DataSegment, Element, Export, ModuleGlobal};
use wasm_instr::Body;
use wasm_types::{FuncType, Import, Limits, TableType};
use wl_base::Seq;

/// A module, section by section (Core 2.5). Indexes count the imports first.
#[derive(Debug, PartialEq, Eq, Drop)]
pub struct Module {
    /// The types of functions (Core 2.5.2).
    pub types: Seq<FuncType>,
    /// What is taken from outside (Core 2.5.11).
    pub imports: Seq<Import>,
    /// For each function that is defined, the index of its type (Core 2.5.3).
    pub functions: Seq<u32>,
    /// The tables that are defined (Core 2.5.4).
    pub tables: Seq<TableType>,
    /// The memories that are defined, in pages of 64 KiB (Core 2.5.5).
    pub memories: Seq<Limits>,
    /// The globals that are defined (Core 2.5.6).
    pub globals: Seq<ModuleGlobal>,
    /// What the outside may use (Core 2.5.10).
    pub exports: Seq<Export>,
    /// What the tables hold at first (Core 2.5.7).
    pub elements: Seq<Element>,
    /// The number of data segments, where it is given (Core 5.5.15).
    pub data_count: Option<u32>,
    /// For each function that is defined, its body (Core 2.5.3).
    pub bodies: Seq<Body>,
    /// What the memories hold at first (Core 2.5.8).
    pub data_segments: Seq<DataSegment>,
}
