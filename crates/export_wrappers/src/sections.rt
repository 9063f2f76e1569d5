//! Reading sections, as the crates `wasm_module` and `module_front` do for themselves.
ghost use Rattle.std.specs.Prelude.{◌≡◌, [], length};
ghost use Rattle.wasm_module.specs.wasm_instr.wasm_grammar.Fault.{Reads, Gives};
ghost use Rattle.wasm_module.specs.wasm_instr.wasm_grammar.Reading.{vector_at};
ghost use Rattle.wasm_module.specs.Sections.{begins, custom_at, customs_at, section_at, next_at};

use std::alloc::Global;
use wasm_grammar::{Form, ReadFault, Stop, part_at, place, sized_at, tag_at};
use wasm_module::lent_name_at;
use wl_base::Seq;

/// The bytes after the custom section at the front (Core 5.5.3).
#[tactic(auto, unfolding(wasm_module::specs::Sections::custom_at))]
fn custom_at(end: usize, bytes: &[u8]) -> Result<&[u8], Stop>
    ensures { Reads (λ x. x.now) result (custom_at end bytes.now) }
{
    let rest = tag_at(0, end, bytes)?;
    let (part, rest) = part_at(end, rest)?;
    lent_name_at(place(end, rest), part)?;
    Ok(rest)
}

/// Whether the first byte is this one.
pub fn begins(id: u8, bytes: &[u8]) -> bool
    ensures { result ≡ begins id bytes.now }
{
    match bytes {
        [] => false,
        [byte, ..] => *byte == id,
    }
}

/// The bytes after the custom sections at the front.
pub fn customs_at(end: usize, bytes: &[u8]) -> Result<&[u8], Stop>
    ensures { Reads (λ x. x.now) result (customs_at (length bytes.now) end bytes.now) }
{
    let most = bytes.len();
    let mut rest = bytes;
    for _ in 0..most {
        if !begins(0, rest) {
            return Ok(rest);
        }
        rest = custom_at(end, rest)?;
    }
    Ok(rest)
}

/// The items of the section of this id, where it stands at the front, and the bytes after it (Core
/// 5.5.2). Else there are none.
#[tactic(auto, unfolding(wasm_module::specs::Sections::section_at))]
pub fn section_at<T: Form>(
    alloc: Global,
    id: u8,
    end: usize,
    bytes: &[u8],
) -> Result<(Seq<T>, &[u8]), ReadFault>
    ensures { Gives (λ x. (x.0, x.1.now)) result (section_at id [] (vector_at T.read_at) end bytes.now) }
{
    if begins(id, bytes) {
        sized_at(alloc, end, &bytes[1..])
    } else {
        Ok((Seq::new(alloc), bytes))
    }
}

/// The items of the section of this id, and the bytes after it and the custom sections behind it.
#[tactic(auto, unfolding(wasm_module::specs::Sections::next_at))]
pub fn next_at<T: Form>(
    alloc: Global,
    id: u8,
    end: usize,
    bytes: &[u8],
) -> Result<(Seq<T>, &[u8]), ReadFault>
    ensures { Gives (λ x. (x.0, x.1.now)) result (next_at id [] (vector_at T.read_at) end bytes.now) }
{
    let (items, rest) = section_at(alloc, id, end, bytes)?;
    let rest = customs_at(end, rest)?;
    Ok((items, rest))
}
