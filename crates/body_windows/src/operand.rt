//! What stands at an immediate that can be a reference.
ghost use Rattle.std.specs.Prelude.{◌≡◌};
ghost use Rattle.body_windows.specs.Operands.{is_reference};

/// What stands at an immediate that can be a reference. A place counts from the body's first byte.
#[derive(Clone, Copy, Debug, PartialEq, Eq)]
pub enum Operand {
    /// The number that stands there.
    Number,
    /// A symbol and an addend, by a relocation of this type.
    Symbol {
        /// The relocation's type.
        kind: u8,
        /// The place of the window's first byte.
        place: u32,
        /// The index of the symbol.
        symbol: u32,
        /// The addend, 0 for the types without one.
        addend: i32,
    },
    /// The index of a type, by a relocation `TYPE_INDEX_LEB`.
    TypeRef {
        /// The place of the window's first byte.
        place: u32,
        /// The index of the type.
        index: u32,
    },
    /// The table 0 without a relocation: it is `__indirect_function_table`.
    TableZero,
}

// A link keeps one for each reference of its objects.
const _: () = prove!(size_of::<Operand>() == 16);

impl Operand {
    /// Whether it is more than the number that stands there.
    #[inline(always)]
    pub fn is_reference(&self) -> bool
        ensures { result ≡ is_reference self.now }
    {
        !matches!(self, Operand::Number)
    }
}
