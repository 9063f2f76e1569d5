//! Writers.
//!
//! Each appends the shortest spelling. Where memory is refused, a part of it may stand behind the
//! bytes that were there; these stay as they were.
ghost use Rattle.std.specs.Prelude.{◌≡◌, List, ℕ, OnOk, OnErr, length, take};
ghost use Rattle.wasm_grammar.specs.Grammar.{SpellsByte, SpellsU32, SpellsS32, SpellsS64, SpellsItself, SpellsBytes, SpellsVector};
ghost use Rattle.wasm_grammar.specs.Writers.{Appends, Writes, HasSpelling, Keeps};

use crate::vector::Form;
use leb_codec::{write_s32, write_s64, write_u32};
use wl_base::{OutOfMemory, Seq};

/// What can be written.
pub trait Spell: Form {
    /// Appends the shortest spelling, where the value has one.
    fn put(&self, to: &mut Seq<u8>) -> Result<(), OutOfMemory>
        ensures ok { OnOk result (Writes (Self.spells self.now) to.old to.new) }
        ensures keeps { Keeps to.old to.new };
}

impl Spell for u32 {
    fn put(&self, to: &mut Seq<u8>) -> Result<(), OutOfMemory> {
        put_u32(to, *self)
    }
}

/// Appends a u32 (Core 5.2.2).
pub fn put_u32(to: &mut Seq<u8>, n: u32) -> Result<(), OutOfMemory>
    ensures ok { OnOk result (Appends (SpellsU32 n) to.old to.new) }
    ensures keeps { Keeps to.old to.new }
{
    let mut text = [0; 10];
    let len = write_u32(n, &mut text);
    to.extend_from_slice(&text[..len])
}

/// Appends an s32 (Core 5.2.2).
// The number comes by reference, since one that stands in an enum would reach the contract as a
// cast.
pub fn put_s32(to: &mut Seq<u8>, n: &i32) -> Result<(), OutOfMemory>
    ensures ok { OnOk result (Appends (SpellsS32 n.now) to.old to.new) }
    ensures keeps { Keeps to.old to.new }
{
    let mut text = [0; 10];
    let len = write_s32(*n, &mut text);
    to.extend_from_slice(&text[..len])
}

/// Appends an s64 (Core 5.2.2).
pub fn put_s64(to: &mut Seq<u8>, n: &i64) -> Result<(), OutOfMemory>
    ensures ok { OnOk result (Appends (SpellsS64 n.now) to.old to.new) }
    ensures keeps { Keeps to.old to.new }
{
    let mut text = [0; 10];
    let len = write_s64(*n, &mut text);
    to.extend_from_slice(&text[..len])
}

/// Appends a count. One that is no u32 has no spelling: it is answered as want of memory is.
pub fn put_count(to: &mut Seq<u8>, n: usize) -> Result<(), OutOfMemory>
    ensures ok { OnOk result (Appends (SpellsU32 n) to.old to.new) }
    ensures keeps { Keeps to.old to.new }
{
    match u32::try_from(n) {
        Ok(n) => put_u32(to, n),
        Err(_) => Err(OutOfMemory),
    }
}

/// Appends a byte (Core 5.2.1).
pub fn put_byte(to: &mut Seq<u8>, byte: u8) -> Result<(), OutOfMemory>
    ensures ok { OnOk result (Appends (SpellsByte byte) to.old to.new) }
    ensures keeps { Keeps to.old to.new }
{
    to.push(byte)
}

/// Takes away what a writer that failed has left behind the first `len` bytes, and answers what it
/// answered.
///
/// So a call that takes `len` before it writes leaves the bytes as they were where memory is
/// refused.
pub fn cut_back(
    to: &mut Seq<u8>,
    len: usize,
    written: Result<(), OutOfMemory>,
) -> Result<(), OutOfMemory>
    ensures same { result ≡ written }
    ensures ok { OnOk written (to.new ≡ to.old) }
    ensures err { OnErr written (to.new ≡ take len to.old) }
{
    if written.is_err() {
        to.truncate(len);
    }
    written
}

/// Appends bytes as they are.
pub fn put_itself(to: &mut Seq<u8>, text: &[u8]) -> Result<(), OutOfMemory>
    ensures ok { OnOk result (Appends (SpellsItself text.now) to.old to.new) }
    ensures keeps { Keeps to.old to.new }
{
    to.extend_from_slice(text)
}

/// Appends a vector of bytes (Core 5.1.3).
#[tactic(auto, using(crate::specs::WriterLaws::keeps_then))]
pub fn put_bytes(to: &mut Seq<u8>, text: &[u8]) -> Result<(), OutOfMemory>
    ensures ok { OnOk result (Appends (SpellsBytes text.now) to.old to.new) }
    ensures keeps { Keeps to.old to.new }
{
    put_count(to, text.len())?;
    put_itself(to, text)
}

/// Appends a vector (Core 5.1.3).
#[tactic(auto, using(crate::specs::WriterLaws::keeps_then))]
pub fn put_vector<T: Spell>(to: &mut Seq<u8>, items: &[T]) -> Result<(), OutOfMemory>
    ensures ok { OnOk result (Writes (SpellsVector T.spells items.now) to.old to.new) }
    // There are fewer than 2^32 items.
    ensures counted { OnOk result (HasSpelling (SpellsU32 (length items.now))) }
    ensures keeps { Keeps to.old to.new }
{
    put_count(to, items.len())?;
    for item in items {
        item.put(to)?;
    }
    Ok(())
}
