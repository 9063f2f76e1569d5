//! The code section as the bytes of its bodies (Core 5.5.13), which are lent.
ghost use Rattle.std.specs.Prelude.{[], map};
ghost use Rattle.wasm_module.specs.wasm_instr.wasm_grammar.Fault.{Gives};
ghost use Rattle.wasm_module.specs.wasm_instr.wasm_grammar.Reading.{many_at, vector_at, part_at, sized_at, whole};
ghost use Rattle.wasm_module.specs.Sections.{section_at, next_at};

use crate::sections::{begins, customs_at};
use std::alloc::Global;
use wasm_grammar::{ReadFault, none_at, part_at, place, u32_at};
use wl_base::Seq;

/// So many parts, and the bytes after them.
fn parts_at<'a>(
    alloc: Global,
    count: u32,
    end: usize,
    bytes: &'a [u8],
) -> Result<(Seq<&'a [u8]>, &'a [u8]), ReadFault>
    ensures { Gives (λ x. (map (λ p. p.now) x.0, x.1.now)) result (many_at part_at count end bytes.now) }
{
    let mut parts = Seq::new(alloc);
    let mut rest = bytes;
    for _ in 0..count {
        let (part, after) = part_at(end, rest)?;
        parts.push(part)?;
        rest = after;
    }
    Ok((parts, rest))
}

/// The contents of a code section: as many parts as are counted at the front.
#[tactic(auto, unfolding(wasm_grammar::specs::Reading::whole, wasm_grammar::specs::Reading::vector_at))]
fn whole_parts<'a>(alloc: Global, end: usize, bytes: &'a [u8]) -> Result<Seq<&'a [u8]>, ReadFault>
    ensures { Gives (λ x. map (λ p. p.now) x) result (whole (vector_at part_at) end bytes.now) }
{
    let (count, rest) = u32_at(end, bytes)?;
    let (parts, rest) = parts_at(alloc, count, end, rest)?;
    none_at(end, rest)?;
    Ok(parts)
}

/// The size of a code section, its parts, and the bytes after them.
#[tactic(auto, unfolding(wasm_grammar::specs::Reading::sized_at))]
fn sized_parts_at<'a>(
    alloc: Global,
    end: usize,
    bytes: &'a [u8],
) -> Result<(Seq<&'a [u8]>, &'a [u8]), ReadFault>
    ensures { Gives (λ x. (map (λ p. p.now) x.0, x.1.now)) result (sized_at (vector_at part_at) end bytes.now) }
{
    let (part, rest) = part_at(end, bytes)?;
    let parts = whole_parts(alloc, place(end, rest), part)?;
    Ok((parts, rest))
}

/// The parts of the code section, where it stands at the front, and the bytes after it. Else there are none.
#[tactic(auto, unfolding(wasm_module::specs::Sections::section_at))]
fn section_parts_at<'a>(
    alloc: Global,
    end: usize,
    bytes: &'a [u8],
) -> Result<(Seq<&'a [u8]>, &'a [u8]), ReadFault>
    ensures { Gives (λ x. (map (λ p. p.now) x.0, x.1.now)) result (section_at 10 [] (vector_at part_at) end bytes.now) }
{
    if begins(10, bytes) {
        sized_parts_at(alloc, end, &bytes[1..])
    } else {
        Ok((Seq::new(alloc), bytes))
    }
}

/// The parts of the code section, and the bytes after it and the custom sections behind it.
#[tactic(auto, unfolding(wasm_module::specs::Sections::next_at))]
pub fn next_parts_at<'a>(
    alloc: Global,
    end: usize,
    bytes: &'a [u8],
) -> Result<(Seq<&'a [u8]>, &'a [u8]), ReadFault>
    ensures { Gives (λ x. (map (λ p. p.now) x.0, x.1.now)) result (next_at 10 [] (vector_at part_at) end bytes.now) }
{
    let (parts, rest) = section_parts_at(alloc, end, bytes)?;
    let rest = customs_at(end, rest)?;
    Ok((parts, rest))
}
