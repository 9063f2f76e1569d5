//! Element segments.
ghost use Rattle.std.specs.Prelude.{false};
ghost use Rattle.wasm_instr.specs.wasm_grammar.Fault.{Gives};
ghost use Rattle.wasm_instr.specs.wasm_grammar.Reading.{many_at, vector_at, whole};
ghost use Rattle.wasm_module.specs.PartReading.{element_at};

use std::alloc::Global;
use wasm_grammar::{ReadFault, none_at, u32_at};
use wasm_module::{Element, element_at};
use wl_base::Seq;

/// So many element segments, and the bytes after them.
fn many_elements(
    alloc: Global,
    count: u32,
    end: usize,
    bytes: &[u8],
) -> Result<(Seq<Element>, &[u8]), ReadFault>
    ensures { Gives (λ x. (x.0, x.1.now)) result (many_at (element_at false) count end bytes.now) }
{
    let mut elements = Seq::new(alloc);
    let mut rest = bytes;
    for _ in 0..count {
        let (element, after) = element_at(alloc, false, end, rest)?;
        elements.push(element)?;
        rest = after;
    }
    Ok((elements, rest))
}

/// The element segments that are all the bytes (Core 5.5.12).
#[tactic(auto, unfolding(wasm_grammar::specs::Reading::vector_at, wasm_grammar::specs::Reading::whole))]
pub fn elements_at(alloc: Global, end: usize, payload: &[u8]) -> Result<Seq<Element>, ReadFault>
    ensures { Gives (λ x. x) result (whole (vector_at (element_at false)) end payload.now) }
{
    let (count, rest) = u32_at(end, payload)?;
    let (elements, rest) = many_elements(alloc, count, end, rest)?;
    none_at(end, rest)?;
    Ok(elements)
}
