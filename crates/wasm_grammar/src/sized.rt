//! Values that are measured by a size, by all the bytes, or by themselves.
ghost use Rattle.std.specs.Prelude.{◌≡◌, ◌≤◌, ◌++◌, length, take, drop, List, ℕ, Result, Ok, IfOk};
ghost use Rattle.wasm_grammar.specs.Fault.{Gives};
ghost use Rattle.wasm_grammar.specs.Reading.{whole, sized_at};

use crate::fault::ReadFault;
use crate::parts::{none_at, part_at, place};
use crate::vector::Form;
use std::alloc::Global;

/// One value that is all the bytes. A byte that is left over is broken.
#[tactic(auto, unfolding(crate::specs::Reading::whole))]
pub fn whole<T: Form>(alloc: Global, end: usize, bytes: &[u8]) -> Result<T, ReadFault>
    ensures { Gives (λ x. x) result (whole T.read_at end bytes.now) }
{
    let (value, rest) = T::form_at(alloc, end, bytes)?;
    none_at(end, rest)?;
    Ok(value)
}

/// A u32 size and one value that is just so many bytes long, and the bytes after it (Core 5.5.2).
#[tactic(auto, unfolding(crate::specs::Reading::sized_at))]
pub fn sized_at<T: Form>(alloc: Global, end: usize, bytes: &[u8]) -> Result<(T, &[u8]), ReadFault>
    ensures { Gives (λ x. (x.0, x.1.now)) result (sized_at T.read_at end bytes.now) }
{
    let (part, rest) = part_at(end, bytes)?;
    let value = whole(alloc, place(end, rest), part)?;
    Ok((value, rest))
}

/// The value at the front, and how many bytes it takes. Places of faults are counted from the first
/// byte.
pub fn read_front<T: Form>(alloc: Global, bytes: &[u8]) -> Result<(T, usize), ReadFault>
    // What is read is spelled so.
    ensures within { IfOk result (λ found. found.1 ≤ length bytes.now) }
    ensures found { IfOk result (λ found. T.spells found.0 (take found.1 bytes.now)) }
    // What is spelled so is read, whatever follows, unless memory runs out.
    ensures only { (x : T) (text rest : List ℕ) → T.spells x text → bytes.now ≡ text ++ rest
        → Gives (λ found. found) result (Ok (x, length text)) }
    // Which fault it is.
    ensures exact { Gives (λ found. (found.0, drop found.1 bytes.now)) result
        (T.read_at (length bytes.now) bytes.now) }
{
    let (value, rest) = T::form_at(alloc, bytes.len(), bytes)?;
    Ok((value, bytes.len() - rest.len()))
}
