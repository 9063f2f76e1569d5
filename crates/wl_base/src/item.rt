//! What can stand in an object and isn't linked.

/// An item of the WebAssembly or object format that the linker names and refuses.
#[derive(Clone, Copy, Debug, PartialEq, Eq)]
pub enum Item {
    /// A section of tags (id 13).
    TagSection,
    /// A start section (id 8).
    StartSection,
    /// An entry of the memory section.
    DefinedMemory,
    /// An entry of the table section.
    DefinedTable,
    /// A second memory import.
    MoreMemories,
    /// A table import other than `env.__indirect_function_table` of funcref, or a second one.
    OtherTable,
    /// An import of a tag (kind 04).
    TagImport,
    /// The first byte of limits, where it is neither 00 nor 01.
    LimitsFlag(u8),
    /// A value type other than i32, i64, f32 and f64.
    ValueType(u8),
    /// The opcode that isn't of a constant expression's form.
    ConstExpr(u8),
    /// A data segment of flag 1.
    PassiveSegment,
    /// The flag of an element or data segment, where it is of no form that is read.
    SegmentForm(u32),
    /// An opcode that isn't carried, and the number after it where it is FC, else 0.
    Opcode { byte: u8, sub: u32 },
    /// A version of the linking section other than 2.
    LinkingVersion(u32),
    /// A symbol of a tag (kind 4).
    TagSymbol,
    /// The flags of a symbol, where they have TLS, ABSOLUTE, a bit without a name, or WEAK and LOCAL together.
    SymbolFlags(u32),
    /// The flags of a segment, where they have TLS or a bit without a name.
    SegmentFlags(u32),
    /// The type of a relocation that isn't read.
    RelocType(u8),
    /// A custom section `dylink.0` or `dylink`: the file is a shared module.
    SharedModule,
}
