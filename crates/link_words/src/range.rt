//! What the numbers of the options may be.
ghost use Rattle.std.specs.Prelude.{◌≡◌, IsTrue};
ghost use Rattle.link_words.specs.Numbers.{is_in, IsIn};

/// The numbers that an option takes.
#[derive(Clone, Copy, Debug)]
pub enum Range {
    /// An address, below 2^32.
    Address,
    /// A stack's bytes: whole units of 16, below 2^32.
    Stack,
    /// A memory's bytes: whole pages of 65,536, at most 2^32.
    Memory,
    /// Workers, from 1 to 64.
    Workers,
    /// Generated objects, from 1 to 20,000.
    Cases,
}

impl Range {
    /// Whether the number is of the range.
    pub fn has(self, n: u64) -> bool
        ensures value { result ≡ is_in self n }
        ensures sound { IsTrue result → IsIn self n }
    {
        match self {
            Range::Address => n < 1 << 32,
            Range::Stack => n < 1 << 32 && n % 16 == 0,
            Range::Memory => n <= 1 << 32 && n % 65_536 == 0,
            Range::Workers => 1 <= n && n <= 64,
            Range::Cases => 1 <= n && n <= 20_000,
        }
    }
}
