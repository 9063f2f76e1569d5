//! The output module.

use wasm_module::{Element, Export, ModuleGlobal};
use wasm_types::{ConstExpr, FuncType, Import, Limits, TableType};
use wl_base::{FileSpan, Seq};

/// Bytes of an input file, or bytes that the linker made.
#[derive(Debug, Drop)]
pub enum Source {
    /// A part of an input file.
    File(FileSpan),
    /// The bytes themselves.
    Own(Seq<u8>),
}

/// Bytes of the memory.
#[derive(Debug, Drop)]
pub struct PlacedSource {
    /// The address of the first byte.
    pub address: u32,
    pub source: Source,
}

/// The sections of the output, in their order (Core 5.5.16). A section without entries is left out.
#[derive(Debug, Drop)]
pub struct Image {
    /// A custom section that stands before all others: its name, spelled with its length, and then what it holds (Core 5.5.3).
    pub custom: Option<Seq<u8>>,
    /// The function types, which all else names by their places (Core 5.5.4).
    pub types: Seq<FuncType>,
    /// What is taken from outside (Core 5.5.5).
    pub imports: Seq<Import>,
    /// The place of each defined function's type (Core 5.5.6).
    pub functions: Seq<u32>,
    /// The defined tables (Core 5.5.7).
    pub tables: Seq<TableType>,
    /// The defined memories, in pages of 65,536 bytes (Core 5.5.8).
    pub memories: Seq<Limits>,
    /// The defined globals (Core 5.5.9).
    pub globals: Seq<ModuleGlobal>,
    /// What is given to the outside (Core 5.5.10).
    pub exports: Seq<Export>,
    /// The element segments, which fill tables (Core 5.5.12).
    pub elements: Seq<Element>,
    /// The body of each defined function: its locals and its code, without its size (Core 5.5.13).
    pub bodies: Seq<Source>,
    /// Where the one data segment begins (Core 5.5.14).
    pub data_offset: ConstExpr,
    /// What the data segment holds, by rising address and without overlap; the bytes between are 0.
    pub blocks: Seq<PlacedSource>,
}
