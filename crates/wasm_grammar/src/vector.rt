//! What can be read, and vectors of it.
ghost use Rattle.std.specs.Prelude.{◌≡◌, List, ℕ};
ghost use Rattle.wasm_grammar.specs.Fault.{Gives};
ghost use Rattle.wasm_grammar.specs.Reading.{Read, many_at, vector_at};
ghost use Rattle.wasm_grammar.specs.Readers.{IsReader};

use crate::fault::ReadFault;
use crate::parts::u32_at;
use std::alloc::Global;
use wl_base::Seq;

/// What has a grammar and can be read.
pub trait Form: Drop + Sized {
    /// Which bytes spell the value.
    ghost spells: { Self → List ℕ → Type 0 };

    /// The value at the front and the bytes after it, or the first fault, of bytes that reach to
    /// this end.
    ghost read_at: { Read Self };

    /// Reads the value at the front of bytes that reach to this end. Answers it and the bytes after
    /// it.
    fn form_at(alloc: Global, end: usize, bytes: &[u8]) -> Result<(Self, &[u8]), ReadFault>
        ensures { Gives (λ x. (x.0, x.1.now)) result (read_at end bytes.now) };

    /// What is read is spelled so, and what is spelled so is read, whatever follows.
    ghost exact: { IsReader spells read_at };
}

// Most items take no fewer bytes.
const ITEM_LEN: usize = 4;

// For so many items there is room in any case.
const FEW: usize = 64;

/// For how many items there is room, where there are to be so many in these bytes.
fn room(count: u32, bytes: &[u8]) -> usize {
    (count as usize).min((bytes.len() / ITEM_LEN).max(FEW))
}

/// So many items at the front, and the bytes after them.
///
/// Room is made for them at the start, but for no more than a part of the bytes that are left: a count that is too great takes
/// little memory.
pub fn many_at<T: Form>(
    alloc: Global,
    count: u32,
    end: usize,
    bytes: &[u8],
) -> Result<(Seq<T>, &[u8]), ReadFault>
    ensures { Gives (λ x. (x.0, x.1.now)) result (many_at T.read_at count end bytes.now) }
{
    let mut items = Seq::with_room(alloc, room(count, bytes))?;
    let mut rest = bytes;
    for _ in 0..count {
        let (item, after) = T::form_at(alloc, end, rest)?;
        items.push(item)?;
        rest = after;
    }
    Ok((items, rest))
}

/// A vector at the front, and the bytes after it (Core 5.1.3).
#[tactic(auto, unfolding(crate::specs::Reading::vector_at))]
pub fn vector_at<T: Form>(
    alloc: Global,
    end: usize,
    bytes: &[u8],
) -> Result<(Seq<T>, &[u8]), ReadFault>
    ensures { Gives (λ x. (x.0, x.1.now)) result (vector_at T.read_at end bytes.now) }
{
    let (count, rest) = u32_at(end, bytes)?;
    many_at(alloc, count, end, rest)
}

impl Form for u32 {
    ghost use Rattle.wasm_grammar.specs.Grammar.{SpellsU32};
    ghost use Rattle.wasm_grammar.specs.Reading.{u32_at};
    ghost use Rattle.wasm_grammar.specs.ReaderLaws.{u32_reader};

    ghost spells = { SpellsU32 };

    ghost read_at = { u32_at };

    ghost exact = { u32_reader };

    fn form_at(_alloc: Global, end: usize, bytes: &[u8]) -> Result<(u32, &[u8]), ReadFault> {
        Ok(u32_at(end, bytes)?)
    }
}

impl<T: Form> Form for Seq<T> {
    ghost use Rattle.wasm_grammar.specs.Grammar.{SpellsVector};
    ghost use Rattle.wasm_grammar.specs.Reading.{vector_at};
    ghost use Rattle.wasm_grammar.specs.ReaderLaws.{vector_reader};

    ghost spells = { SpellsVector T.spells };

    ghost read_at = { vector_at T.read_at };

    ghost exact = { vector_reader T.spells T.read_at T.exact };

    fn form_at(alloc: Global, end: usize, bytes: &[u8]) -> Result<(Seq<T>, &[u8]), ReadFault> {
        vector_at(alloc, end, bytes)
    }
}
