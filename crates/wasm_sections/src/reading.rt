//! From the file's bytes to its sections.
ghost use Rattle.std.specs.Prelude.{◌≡◌, ◌+◌, ◌<◌, ◌≤◌, List, length, Ok, IfOk, All};
ghost use Rattle.wasm_sections.specs.Sections.{rank_of, IsFrame};
ghost use Rattle.wasm_sections.specs.Reading.{Gives, section_at, sections_at, frame_at};
ghost use Rattle.wasm_sections.specs.declared.section.SectionSpan.{SectionSpan as Section};

use crate::fault::FrameFault;
use crate::section::SectionSpan;
use std::alloc::Global;
use wasm_grammar::{place, u32_at};
use wl_base::{Seq, Span};

// Few modules have more sections.
const USUAL: usize = 16;

/// Where a section stands in the order, from 1; 0 for a custom one, which may stand anywhere.
fn rank_of(id: u8) -> u8
    ensures { result ≡ rank_of id }
{
    match id {
        1..=5 => id,
        13 => 6,
        6..=9 => id + 1,
        12 => 11,
        10 => 12,
        11 => 13,
        _ => 0,
    }
}

/// The section at the front, and the bytes after it. The section with the greatest rank before it
/// has the rank `last`.
#[tactic(auto, unfolding(crate::specs::Reading::section_at))]
fn section_at(last: u8, end: usize, bytes: &[u8]) -> Result<(SectionSpan, &[u8]), FrameFault>
    ensures value { Gives (λ x. (x.0, x.1.now)) result (section_at last end bytes.now) }
    ensures shorter { IfOk result (λ x. length x.1.now < length bytes.now) }
{
    let at = place(end, bytes) as u64;
    let [id, after @ ..] = bytes else {
        return Err(FrameFault::BadSize(at));
    };
    if *id > 13 {
        return Err(FrameFault::BadId(at));
    }
    let Ok((size, body)) = u32_at(end, after) else {
        return Err(FrameFault::BadSize(at));
    };
    if body.len() < size as usize {
        return Err(FrameFault::BadSize(at));
    }
    let rank = rank_of(*id);
    if rank != 0 && rank <= last {
        return Err(FrameFault::BadOrder(at));
    }
    let payload = Span {
        start: place(end, body) as u64,
        len: u64::from(size),
    };
    Ok((SectionSpan { id: *id, payload }, &body[size as usize..]))
}

/// The sections that the bytes are.
fn sections_at(alloc: Global, end: usize, bytes: &[u8]) -> Result<Seq<SectionSpan>, FrameFault>
    ensures { Gives (λ x. x) result (sections_at (length bytes.now) 0 end bytes.now) }
{
    let mut sections = Seq::with_room(alloc, USUAL)?;
    let mut last = 0;
    let mut rest = bytes;
    while rest.len() > 0 {
        let (section, after) = section_at(last, end, rest)?;
        sections.push(section)?;
        last = rank_of(section.id).max(last);
        rest = after;
    }
    Ok(sections)
}

/// The sections behind the header.
#[tactic(auto, unfolding(crate::specs::Reading::frame_at))]
fn frame_at(alloc: Global, bytes: &[u8]) -> Result<Seq<SectionSpan>, FrameFault>
    ensures { Gives (λ x. x) result (frame_at bytes.now) }
{
    match bytes {
        [0x00, 0x61, 0x73, 0x6d, 0x01, 0x00, 0x00, 0x00, rest @ ..] => {
            sections_at(alloc, bytes.len(), rest)
        }
        _ => Err(FrameFault::BadHeader),
    }
}

/// The sections of a module, in their order (Core 5.5.16).
///
/// Custom sections may stand anywhere. The others stand at most once each, in this order: type,
/// import, function, table, memory, tag, global, export, start, element, data count, code, data.
/// For one section the faults are looked for in this order: id, size, order.
pub fn frame(alloc: Global, bytes: &[u8]) -> Result<Seq<SectionSpan>, FrameFault>
    // What is read is a frame.
    ensures found { IfOk result (λ ss. IsFrame ss bytes.now) }
    // A frame is read, unless memory runs out.
    ensures only { (ss : List Section) → IsFrame ss bytes.now → Gives (λ x. x) result (Ok ss) }
    // Which fault it is: that of the header, or else of the first section at fault.
    ensures exact { Gives (λ x. x) result (frame_at bytes.now) }
    // Each payload lies in the file.
    ensures within { IfOk result (All (λ s. s.payload.start + s.payload.len ≤ length bytes.now)) }
{
    frame_at(alloc, bytes)
}
