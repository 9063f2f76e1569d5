//! Reading the code of functions.
ghost use Rattle.std.specs.Prelude.{[]};
ghost use Rattle.wasm_instr.specs.wasm_grammar.Fault.{Gives};
ghost use Rattle.wasm_instr.specs.wasm_grammar.Reading.{many_at, vector_at, sized_at, whole};
ghost use Rattle.wasm_module.specs.Sections.{section_at, next_at};
ghost use Rattle.wasm_module.specs.ModuleReading.{code_at};

use crate::sections::{begins, customs_at};
use std::alloc::Global;
use wasm_grammar::{ReadFault, none_at, part_at, place, u32_at};
use wasm_instr::{Body, body_at};
use wl_base::Seq;

/// A function's code at the front, and the bytes after it (Core 5.5.13). The places in the body are
/// counted from its first byte.
#[tactic(auto, unfolding(crate::specs::ModuleReading::code_at))]
fn code_at(alloc: Global, end: usize, bytes: &[u8]) -> Result<(Body, &[u8]), ReadFault>
    ensures { Gives (λ x. (x.0, x.1.now)) result (code_at end bytes.now) }
{
    let (part, rest) = part_at(end, bytes)?;
    let body = body_at(alloc, part)?;
    Ok((body, rest))
}

/// The code of so many functions, and the bytes after it.
fn codes_at(
    alloc: Global,
    count: u32,
    end: usize,
    bytes: &[u8],
) -> Result<(Seq<Body>, &[u8]), ReadFault>
    ensures { Gives (λ x. (x.0, x.1.now)) result (many_at code_at count end bytes.now) }
{
    let mut bodies = Seq::new(alloc);
    let mut rest = bytes;
    for _ in 0..count {
        let (body, after) = code_at(alloc, end, rest)?;
        bodies.push(body)?;
        rest = after;
    }
    Ok((bodies, rest))
}

/// The contents of a code section: as many functions as are counted at the front.
#[tactic(auto, unfolding(wasm_grammar::specs::Reading::whole, wasm_grammar::specs::Reading::vector_at))]
fn whole_codes(alloc: Global, end: usize, part: &[u8]) -> Result<Seq<Body>, ReadFault>
    ensures { Gives (λ x. x) result (whole (vector_at code_at) end part.now) }
{
    let (count, rest) = u32_at(end, part)?;
    let (bodies, rest) = codes_at(alloc, count, end, rest)?;
    none_at(end, rest)?;
    Ok(bodies)
}

/// The size of a code section, its contents, and the bytes after them.
#[tactic(auto, unfolding(wasm_grammar::specs::Reading::sized_at))]
fn sized_codes_at(alloc: Global, end: usize, bytes: &[u8]) -> Result<(Seq<Body>, &[u8]), ReadFault>
    ensures { Gives (λ x. (x.0, x.1.now)) result (sized_at (vector_at code_at) end bytes.now) }
{
    let (part, rest) = part_at(end, bytes)?;
    let bodies = whole_codes(alloc, place(end, rest), part)?;
    Ok((bodies, rest))
}

/// The bodies of the code section, where it stands at the front, and the bytes after it (Core
/// 5.5.13). Else there are none.
#[tactic(auto, unfolding(crate::specs::Sections::section_at))]
fn code_section_at(alloc: Global, end: usize, bytes: &[u8]) -> Result<(Seq<Body>, &[u8]), ReadFault>
    ensures { Gives (λ x. (x.0, x.1.now)) result (section_at 10 [] (vector_at code_at) end bytes.now) }
{
    if begins(10, bytes) {
        sized_codes_at(alloc, end, &bytes[1..])
    } else {
        Ok((Seq::new(alloc), bytes))
    }
}

/// The bodies of the code section, and the bytes after it and the custom sections behind it.
#[tactic(auto, unfolding(crate::specs::Sections::next_at))]
pub fn next_codes_at(
    alloc: Global,
    end: usize,
    bytes: &[u8],
) -> Result<(Seq<Body>, &[u8]), ReadFault>
    ensures { Gives (λ x. (x.0, x.1.now)) result (next_at 10 [] (vector_at code_at) end bytes.now) }
{
    let (bodies, rest) = code_section_at(alloc, end, bytes)?;
    let rest = customs_at(end, rest)?;
    Ok((bodies, rest))
}
