//! The pieces of a line.
ghost use Rattle.std.specs.Prelude.{◌≡◌, ◌<◌};
ghost use Rattle.wl_outside.specs.Sink.{Wrote};
ghost use Rattle.link_lines.specs.Pieces.{piece_bytes, escaped, printed, hex_digit};

use wl_base::Name as SymbolName;
use wl_outside::{Failed, Sink};

/// A piece of a line. Numbers are decimal.
#[derive(Clone, Copy)]
pub enum Piece<'a> {
    /// A text as it stands.
    Text(&'a str),
    /// A name, byte by byte: a printable byte but the space and the backslash as itself, each other byte as `\x` and two
    /// upper hexadecimal digits.
    Name(&'a SymbolName),
    /// A number of 8 bits.
    Byte(u8),
    /// A place or the number of an input.
    Index(u32),
    /// A count, a length or a sum.
    Number(u64),
}

impl Piece<'_> {
    /// Writes the piece.
    ///
    /// # Errors
    /// `Failed` where a write fails; the sink then has a prefix of the piece.
    pub fn say<E: Sink>(&self, say: &mut E) -> Result<(), Failed>
        ensures { Wrote result (piece_bytes self.now) (E.told say.old) (E.told say.new) }
    {
        match self {
            Piece::Text(text) => say.write(text.as_bytes()),
            Piece::Name(name) => say_name(name.as_slice(), say),
            Piece::Byte(n) => say.write(itoa::Buffer::new().format(*n).as_bytes()),
            Piece::Index(n) => say.write(itoa::Buffer::new().format(*n).as_bytes()),
            Piece::Number(n) => say.write(itoa::Buffer::new().format(*n).as_bytes()),
        }
    }
}

// Writes a name byte by byte.
fn say_name<E: Sink>(name: &[u8], say: &mut E) -> Result<(), Failed>
    ensures { Wrote result (printed name.now) (E.told say.old) (E.told say.new) }
{
    for byte in name {
        say_byte(*byte, say)?;
    }
    Ok(())
}

// Writes a byte of a name.
fn say_byte<E: Sink>(byte: u8, say: &mut E) -> Result<(), Failed>
    ensures { Wrote result (escaped byte) (E.told say.old) (E.told say.new) }
{
    if byte >= b'!' && byte <= b'~' && byte != b'\\' {
        say.write(&[byte])
    } else {
        say.write(&[b'\\', b'x', hex_of(byte / 16), hex_of(byte % 16)])
    }
}

// An upper hexadecimal digit.
fn hex_of(digit: u8) -> u8
    requires { digit < 16 }
    ensures { result ≡ hex_digit digit }
{
    if digit < 10 {
        b'0' + digit
    } else {
        b'A' + (digit - 10)
    }
}
