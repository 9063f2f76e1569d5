//! The forms of a number.
ghost use Rattle.std.specs.Prelude.{◌≡◌};
ghost use Rattle.leb_codec.specs.Spelling.{greatest_of, is_allowed};

/// How long a spelling may be, and which bytes may stand at that length.
///
/// Core Specification, "Binary Format, Values, Integers".
#[derive(Clone, Copy)]
pub enum Form {
    /// Without a sign, 32 bits.
    U32,
    /// With a sign, 32 bits.
    S32,
    /// With a sign, 33 bits: a block's type.
    S33,
    /// With a sign, 64 bits.
    S64,
}

impl Form {
    /// The greatest length in bytes.
    pub fn greatest(self) -> usize
        ensures { result ≡ greatest_of self }
    {
        match self {
            Form::U32 | Form::S32 | Form::S33 => 5,
            Form::S64 => 10,
        }
    }

    /// Whether this byte, which is below 0x80, may stand at the greatest length.
    pub fn allows(self, tail: u8) -> bool
        ensures { result ≡ is_allowed self tail }
    {
        match self {
            Form::U32 => tail < 0x10,
            Form::S32 => tail < 0x08 || tail >= 0x78,
            Form::S33 => tail < 0x10 || tail >= 0x70,
            Form::S64 => tail == 0 || tail == 0x7f,
        }
    }
}
