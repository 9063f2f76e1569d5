//! The classes of opcodes.
ghost use Rattle.std.specs.Prelude.{◌≡◌};
ghost use Rattle.wasm_instr.specs.Classes.{class_of};

/// What follows an opcode (Core 5.4).
#[derive(Clone, Copy, Debug, PartialEq, Eq)]
pub enum Class {
    /// Nothing.
    Plain,
    /// The type of a block, a loop or an `if`.
    Block,
    /// A label.
    Branch,
    /// A vector of labels, and a label.
    BranchTable,
    /// The index of a function.
    Call,
    /// The index of a type, and the index of a table.
    CallIndirect,
    /// A vector of value types.
    SelectTyped,
    /// The index of a local.
    Local,
    /// The index of a global.
    GlobalAt,
    /// An alignment and an offset.
    Access,
    /// The byte 00, behind `memory.size`.
    MemorySize,
    /// The byte 00, behind `memory.grow`.
    MemoryGrow,
    /// An s32.
    I32Const,
    /// An s64.
    I64Const,
    /// The four bytes of an f32.
    F32Const,
    /// The eight bytes of an f64.
    F64Const,
    /// A number that is a part of the opcode, and what follows it.
    Numbered,
    /// It isn't read: no instruction of this opcode is linked.
    Foreign,
}

/// The class of an opcode (Core 5.4.1 to 5.4.8). What only copies, converts or computes numbers of
/// any kind is carried. References, tables, bulk memory but for `memory.copy` and `memory.fill`,
/// vectors and threads are foreign, and so are bytes that are no opcode.
#[inline(always)]
#[tactic(auto, unfolding(crate::specs::Classes::class_of))]
pub fn class_of(op: u8) -> Class
    ensures { result ≡ class_of op }
{
    match op {
        0x00 | 0x01 | 0x05 | 0x0b | 0x0f | 0x1a | 0x1b => Class::Plain,
        0x02..=0x04 => Class::Block,
        0x0c | 0x0d => Class::Branch,
        0x0e => Class::BranchTable,
        0x10 => Class::Call,
        0x11 => Class::CallIndirect,
        0x1c => Class::SelectTyped,
        0x20..=0x22 => Class::Local,
        0x23 | 0x24 => Class::GlobalAt,
        0x28..=0x3e => Class::Access,
        0x3f => Class::MemorySize,
        0x40 => Class::MemoryGrow,
        0x41 => Class::I32Const,
        0x42 => Class::I64Const,
        0x43 => Class::F32Const,
        0x44 => Class::F64Const,
        0x45..=0xc4 => Class::Plain,
        0xfc => Class::Numbered,
        _ => Class::Foreign,
    }
}
