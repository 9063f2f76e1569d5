//! Bytes and names that are kept.
ghost use Rattle.std.specs.Prelude.{◌≡◌};
ghost use Rattle.wasm_grammar.specs.Fault.{Gives};
ghost use Rattle.wasm_grammar.specs.Reading.{bytes_at, name_at};

use crate::fault::{ReadFault, Stop};
use crate::parts::{bytes_at, place};
use byte_text::is_utf8;
use std::alloc::Global;
use wl_base::{Name, Seq};

/// A vector of bytes at the front, kept, and the bytes after it (Core 5.1.3).
pub fn blob_at(alloc: Global, end: usize, bytes: &[u8]) -> Result<(Seq<u8>, &[u8]), ReadFault>
    ensures { Gives (λ x. (x.0, x.1.now)) result (bytes_at end bytes.now) }
{
    let (text, rest) = bytes_at(end, bytes)?;
    let kept = Seq::from_slice(alloc, text)?;
    Ok((kept, rest))
}

/// A name at the front, and the bytes after it (Core 5.2.4). Bytes that aren't UTF-8 are broken at
/// the place of their count.
#[tactic(auto, unfolding(crate::specs::Reading::name_at))]
pub fn name_at(alloc: Global, end: usize, bytes: &[u8]) -> Result<(Name, &[u8]), ReadFault>
    ensures { Gives (λ x. (x.0, x.1.now)) result (name_at end bytes.now) }
{
    let (text, rest) = bytes_at(end, bytes)?;
    if !is_utf8(text) {
        return Err(ReadFault::Stopped(Stop::Broken(place(end, bytes))));
    }
    let name = Seq::from_slice(alloc, text)?;
    Ok((name, rest))
}
