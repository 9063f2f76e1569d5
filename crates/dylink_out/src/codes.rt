//! Types of subsections (DynamicLinking.md, "The dylink.0 Section"), opcodes (Core 5.4), and the linker's imported globals.

/// The type of the subsection of sizes, `WASM_DYLINK_MEM_INFO`.
pub(crate) const MEM_INFO: u8 = 1;

/// The type of the subsection of needed modules, `WASM_DYLINK_NEEDED`.
pub(crate) const NEEDED: u8 = 2;

/// The type of the subsection on exports, `WASM_DYLINK_EXPORT_INFO`.
pub(crate) const EXPORT_INFO: u8 = 3;

/// The type of the subsection on imports, `WASM_DYLINK_IMPORT_INFO`.
pub(crate) const IMPORT_INFO: u8 = 4;

/// `end`, of a body.
pub(crate) const END: u8 = 0x0b;

/// `global.get`, of a global's number.
pub(crate) const GLOBAL_GET: u8 = 0x23;

/// `global.set`, of a global's number.
pub(crate) const GLOBAL_SET: u8 = 0x24;

/// `i32.store`, of a memory argument.
pub(crate) const I32_STORE: u8 = 0x36;

/// `i32.const`, of a number.
pub(crate) const I32_CONST: u8 = 0x41;

/// `i32.add`.
pub(crate) const I32_ADD: u8 = 0x6a;

/// The memory argument of a word: its alignment as a power of 2, and the offset 0.
pub(crate) const WORD_ARGUMENT: [u8; 2] = [2, 0];

/// The count of declared locals of a body without any.
pub(crate) const NO_LOCALS: u8 = 0;

/// The global `__memory_base`.
pub(crate) const MEMORY_BASE: u32 = 1;

/// The global `__table_base`.
pub(crate) const TABLE_BASE: u32 = 2;
