//! Digits, names and numbers behind a text. All `put_*` put their text at the end of `to`, and refuse for want of
//! memory alone.
ghost use Rattle.std.specs.Prelude.{◌≡◌, ◌<◌, ◌++◌, ◌∷◌, [], OnOk, decimal};
ghost use Rattle.std.specs.List.{flat_map};
ghost use Rattle.run_text.specs.Text.{hex_digit, hex2, hex8, escaped, name_text};

use wl_base::{OutOfMemory, Seq};

// The digit of this value; letters are upper.
fn hex_of(digit: u8) -> u8
    requires { digit < 16 }
    ensures { result ≡ hex_digit digit }
{
    if digit < 10 {
        b'0' + digit
    } else {
        b'A' + (digit - 10)
    }
}

/// Puts a text.
pub fn put_text(to: &mut Seq<u8>, text: &str) -> Result<(), OutOfMemory>
    ensures { OnOk result (to.new ≡ to.old ++ text.now) }
{
    to.extend_from_slice(text.as_bytes())
}

/// Puts two hexadecimal digits.
pub fn put_hex2(to: &mut Seq<u8>, byte: u8) -> Result<(), OutOfMemory>
    ensures { OnOk result (to.new ≡ to.old ++ hex2 byte) }
{
    to.push(hex_of(byte / 16))?;
    to.push(hex_of(byte % 16))
}

/// Puts the last eight hexadecimal digits of a number.
pub fn put_hex8(to: &mut Seq<u8>, n: u64) -> Result<(), OutOfMemory>
    ensures { OnOk result (to.new ≡ to.old ++ hex8 n) }
{
    put_hex2(to, (n / 16_777_216 % 256) as u8)?;
    put_hex2(to, (n / 65_536 % 256) as u8)?;
    put_hex2(to, (n / 256 % 256) as u8)?;
    put_hex2(to, (n % 256) as u8)
}

/// Puts a decimal number.
pub fn put_number(to: &mut Seq<u8>, n: u64) -> Result<(), OutOfMemory>
    ensures { OnOk result (to.new ≡ to.old ++ decimal n) }
{
    to.extend_from_slice(itoa::Buffer::new().format(n).as_bytes())
}

// Puts a byte of a name: as itself, or by its two digits.
fn put_escaped(to: &mut Seq<u8>, byte: u8) -> Result<(), OutOfMemory>
    ensures { OnOk result (to.new ≡ to.old ++ escaped byte) }
{
    if byte >= b'!' && byte <= b'~' && byte != b'\\' {
        to.push(byte)
    } else {
        to.push(b'\\')?;
        to.push(b'x')?;
        put_hex2(to, byte)
    }
}

/// Puts a name; the empty one is `\e`.
pub fn put_name(to: &mut Seq<u8>, name: &[u8]) -> Result<(), OutOfMemory>
    ensures { OnOk result (to.new ≡ to.old ++ name_text name.now) }
{
    if name.is_empty() {
        return put_text(to, "\\e");
    }
    for byte in name {
        put_escaped(to, *byte)?;
    }
    Ok(())
}
