//! The types of relocations that are read (Linking.md, 'Relocation Sections'). In the names there,
//! `R_WASM_` stands before each.
ghost use Rattle.std.specs.Prelude.{◌≡◌};
ghost use Rattle.reloc_section.specs.Kinds.{is_read, has_addend};

/// A function's index, in code.
pub const FUNCTION_INDEX_LEB: u8 = 0;
/// A function's slot in the table, in code.
pub const TABLE_INDEX_SLEB: u8 = 1;
/// A function's slot in the table, in data.
pub const TABLE_INDEX_I32: u8 = 2;
/// An address and an addend, as the offset of a load or store.
pub const MEMORY_ADDR_LEB: u8 = 3;
/// An address and an addend, as a constant.
pub const MEMORY_ADDR_SLEB: u8 = 4;
/// An address and an addend, in data.
pub const MEMORY_ADDR_I32: u8 = 5;
/// The index of a type, in code.
pub const TYPE_INDEX_LEB: u8 = 6;
/// A global's index, in code.
pub const GLOBAL_INDEX_LEB: u8 = 7;
/// A place in a function's body and an addend, in a custom section.
pub const FUNCTION_OFFSET_I32: u8 = 8;
/// A place in a section and an addend, in a custom section.
pub const SECTION_OFFSET_I32: u8 = 9;
/// An address and an addend, from `__memory_base` on.
pub const MEMORY_ADDR_REL_SLEB: u8 = 11;
/// A function's slot in the table, from `__table_base` on.
pub const TABLE_INDEX_REL_SLEB: u8 = 12;
/// A global's index, in a custom section.
pub const GLOBAL_INDEX_I32: u8 = 13;
/// A table's index, in code.
pub const TABLE_NUMBER_LEB: u8 = 20;

/// Whether the type is one of these.
pub fn is_read(kind: u8) -> bool
    ensures { result ≡ is_read kind }
{
    matches!(
        kind,
        FUNCTION_INDEX_LEB..=SECTION_OFFSET_I32
            | MEMORY_ADDR_REL_SLEB..=GLOBAL_INDEX_I32
            | TABLE_NUMBER_LEB
    )
}

/// Whether an entry of the type has an addend.
pub fn has_addend(kind: u8) -> bool
    ensures { result ≡ has_addend kind }
{
    matches!(
        kind,
        MEMORY_ADDR_LEB..=MEMORY_ADDR_I32
            | FUNCTION_OFFSET_I32
            | SECTION_OFFSET_I32
            | MEMORY_ADDR_REL_SLEB
    )
}
