//! Immediates that can be a reference.
ghost use Rattle.std.specs.Prelude.{◌≡◌, ◌+◌, ◌<◌, ◌^◌};
ghost use Rattle.body_windows.specs.Immediates.{between, may_stand, needs_window, plain_operand, fills, operand_of};

use crate::operand::Operand;
use reloc_section::{Reloc, kinds};

/// What an immediate that can be a reference says.
#[derive(Clone, Copy, Debug, PartialEq, Eq)]
pub enum ImmediateKind {
    /// The function of a `call`.
    FunctionIndex,
    /// The type of a `call_indirect`, or of a block.
    TypeIndex,
    /// The table of a `call_indirect`, with the number that stands there.
    TableIndex(u32),
    /// The global of a `global.get` or `global.set`.
    GlobalIndex,
    /// The offset of a load or store.
    MemoryOffset,
    /// The number of an `i32.const`.
    Constant,
}

/// An immediate that can be a reference.
#[derive(Clone, Copy, Debug, PartialEq, Eq)]
pub struct Immediate {
    pub kind: ImmediateKind,
    /// Its place, from the body's first byte.
    pub place: u32,
    /// How many bytes it has.
    pub len: u32,
}

impl ImmediateKind {
    /// Whether a relocation of this type may stand on it.
    #[inline(always)]
    pub fn may_stand(&self, kind: u8) -> bool
        ensures { result ≡ may_stand kind self.now }
    {
        match self {
            ImmediateKind::FunctionIndex => kind == kinds::FUNCTION_INDEX_LEB,
            ImmediateKind::TypeIndex => kind == kinds::TYPE_INDEX_LEB,
            ImmediateKind::TableIndex(_) => kind == kinds::TABLE_NUMBER_LEB,
            ImmediateKind::GlobalIndex => kind == kinds::GLOBAL_INDEX_LEB,
            ImmediateKind::MemoryOffset => kind == kinds::MEMORY_ADDR_LEB,
            ImmediateKind::Constant => matches!(
                kind,
                kinds::TABLE_INDEX_SLEB
                    | kinds::MEMORY_ADDR_SLEB
                    | kinds::MEMORY_ADDR_REL_SLEB
                    | kinds::TABLE_INDEX_REL_SLEB
            ),
        }
    }

    /// Whether a relocation has to stand on it.
    #[inline(always)]
    pub fn needs_window(&self) -> bool
        ensures { result ≡ needs_window self.now }
    {
        match self {
            ImmediateKind::FunctionIndex | ImmediateKind::TypeIndex | ImmediateKind::GlobalIndex =>
                true,
            ImmediateKind::TableIndex(table) => *table != 0,
            ImmediateKind::MemoryOffset | ImmediateKind::Constant => false,
        }
    }

    /// The operand where no relocation stands on it.
    #[inline(always)]
    pub fn plain_operand(&self) -> Operand
        ensures { result ≡ plain_operand self.now }
    {
        match self {
            ImmediateKind::TableIndex(0) => Operand::TableZero,
            _ => Operand::Number,
        }
    }
}

impl Immediate {
    /// The immediate that begins at the place `from` and ends at `to`.
    #[inline(always)]
    pub fn between(kind: ImmediateKind, from: u32, to: u32) -> Self
        ensures { result ≡ between kind from to }
    {
        Immediate {
            kind,
            place: from,
            len: to.saturating_sub(from),
        }
    }

    /// Whether it is the window of this relocation, in a body that begins at the place `base`.
    #[inline(always)]
    pub fn fills(&self, base: u32, reloc: &Reloc) -> bool
        requires { base + self.now.place < 2 ^ 32 }
        ensures { result ≡ fills base reloc.now self.now }
    {
        base + self.place == reloc.offset && self.len == 5 && self.kind.may_stand(reloc.kind)
    }

    /// The operand where this relocation stands on it.
    #[inline(always)]
    pub fn operand_of(&self, reloc: &Reloc) -> Operand
        ensures { result ≡ operand_of self.now reloc.now }
    {
        if reloc.kind == kinds::TYPE_INDEX_LEB {
            Operand::TypeRef {
                place: self.place,
                index: reloc.index,
            }
        } else {
            Operand::Symbol {
                kind: reloc.kind,
                place: self.place,
                symbol: reloc.index,
                addend: reloc.addend,
            }
        }
    }
}
