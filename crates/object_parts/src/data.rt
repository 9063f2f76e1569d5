//! Data segments.
ghost use Rattle.std.specs.Prelude.{◌≡◌};
ghost use Rattle.wasm_instr.specs.wasm_grammar.Fault.{Reads, Gives};
ghost use Rattle.object_parts.specs.Turns.{turns_at, entries_at};
ghost use Rattle.object_parts.specs.Placed.{stays, data_part_at};

use crate::parts::DataPart;
use crate::placed::span_before;
use std::alloc::Global;
use wasm_grammar::{ReadFault, Stop, none_at, u32_at};
use wasm_module::lent_segment_at;
use wl_base::Seq;

/// The segment at the front, and the bytes after it (Core 5.5.14).
#[tactic(auto, unfolding(crate::specs::Placed::data_part_at))]
fn data_part_at(end: usize, bytes: &[u8]) -> Result<(DataPart, &[u8]), Stop>
    ensures { Reads (λ x. (x.0, x.1.now)) result (data_part_at tt end bytes.now) }
{
    let (memory, _offset, content, rest) = lent_segment_at(false, end, bytes)?;
    let span = span_before(end, content.len(), rest);
    Ok((DataPart { memory, span }, rest))
}

/// So many segments, and the bytes after them.
fn many_segments(
    alloc: Global,
    count: u32,
    end: usize,
    bytes: &[u8],
) -> Result<(Seq<DataPart>, &[u8]), ReadFault>
    ensures { Gives (λ x. (x.0, x.1.now)) result (turns_at data_part_at stays count tt end bytes.now) }
{
    let mut segments = Seq::new(alloc);
    let mut rest = bytes;
    for _ in 0..count {
        let (segment, after) = data_part_at(end, rest)?;
        segments.push(segment)?;
        rest = after;
    }
    Ok((segments, rest))
}

/// The segments that are all the bytes (Core 5.5.14).
#[tactic(auto, unfolding(crate::specs::Turns::entries_at))]
pub fn segments_at(alloc: Global, end: usize, payload: &[u8]) -> Result<Seq<DataPart>, ReadFault>
    ensures { Gives (λ x. x) result (entries_at data_part_at stays tt end payload.now) }
{
    let (count, rest) = u32_at(end, payload)?;
    let (segments, rest) = many_segments(alloc, count, end, rest)?;
    none_at(end, rest)?;
    Ok(segments)
}
