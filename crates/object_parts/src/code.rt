//! The code section.
ghost use Rattle.std.specs.Prelude.{◌≡◌, ◌+◌, ◌≤◌, ◌^◌, length, IfOk};
ghost use Rattle.std.specs.List.{prefix_len};
ghost use Rattle.wasm_instr.specs.wasm_grammar.Fault.{Gives};
ghost use Rattle.object_parts.specs.Placed.{span_before};
ghost use Rattle.object_parts.specs.Turns.{turns_at, entries_at};
ghost use Rattle.object_parts.specs.Code.{begins_before, before, behind, left_behind, body_in, code_body_at};

use crate::parts::CodeBody;
use crate::placed::span_before;
use body_windows::{Reloc, scan};
use std::alloc::Global;
use wasm_grammar::{ReadFault, none_at, part_at, u32_at};
use wl_base::{Seq, Span};

/// How many relocations in front begin before a place of the payload.
fn count_before(place: u64, relocs: &[Reloc]) -> usize
    ensures value { result ≡ prefix_len (begins_before place) relocs.now }
    ensures within { result ≤ length relocs.now }
{
    relocs
        .iter()
        .take_while(|r| u64::from(r.offset) < place)
        .count()
}

/// The relocations that begin before a place of the payload, and those from there on.
pub fn split_at_place(place: u64, relocs: &[Reloc]) -> (&[Reloc], &[Reloc])
    ensures before { result.0.now ≡ before place relocs.now }
    ensures behind { result.1.now ≡ behind place relocs.now }
{
    let count = count_before(place, relocs);
    (&relocs[..count], &relocs[count..])
}

/// The body that stands at this span, with its relocations of those that are left, and those that
/// are left behind it. The stack of open blocks is lent.
#[tactic(auto, unfolding(crate::specs::Code::body_in, body_windows::specs::Scanning::scan_of))]
fn body_in<'a>(
    alloc: Global,
    opens: &mut Seq<bool>,
    start: u64,
    relocs: &'a [Reloc],
    span: Span,
    part: &[u8],
) -> Result<(CodeBody, &'a [Reloc]), ReadFault>
    requires place { span.start + span.len ≤ 2 ^ 30 }
    requires len { length part.now ≤ 2 ^ 30 }
    ensures value { Gives (λ x. x.0) result (body_in start relocs.now span part.now) }
    ensures left { IfOk result (λ x. x.1.now ≡ left_behind start relocs.now x.0) }
{
    let until = (span.start + span.len).saturating_sub(start);
    let base = span.start.saturating_sub(start) as u32;
    let (own, left) = split_at_place(until, relocs);
    let windows = scan(alloc, opens, part, base, own)?;
    Ok((CodeBody { span, windows }, left))
}

/// The body at the front, the relocations that are left behind it, and the bytes after it (Core
/// 5.5.13).
#[tactic(auto, unfolding(crate::specs::Code::code_body_at))]
fn code_body_at<'a, 'b>(
    alloc: Global,
    opens: &mut Seq<bool>,
    start: u64,
    relocs: &'a [Reloc],
    end: usize,
    bytes: &'b [u8],
) -> Result<(CodeBody, &'a [Reloc], &'b [u8]), ReadFault>
    requires within { length bytes.now ≤ end }
    requires few { end ≤ 2 ^ 30 }
    ensures value { Gives (λ x. (x.0, x.2.now)) result (code_body_at start relocs.now end bytes.now) }
    ensures left { IfOk result (λ x. x.1.now ≡ left_behind start relocs.now x.0) }
    ensures shorter { IfOk result (λ x. length x.2.now ≤ length bytes.now) }
{
    let (part, rest) = part_at(end, bytes)?;
    let span = span_before(end, part.len(), rest);
    let (body, left) = body_in(alloc, opens, start, relocs, span, part)?;
    Ok((body, left, rest))
}

/// So many bodies, and the bytes after them.
fn many_bodies<'a>(
    alloc: Global,
    start: u64,
    relocs: &[Reloc],
    count: u32,
    end: usize,
    bytes: &'a [u8],
) -> Result<(Seq<CodeBody>, &'a [u8]), ReadFault>
    requires within { length bytes.now ≤ end }
    requires few { end ≤ 2 ^ 30 }
    ensures { Gives (λ x. (x.0, x.1.now)) result (turns_at (code_body_at start) (left_behind start) count relocs.now end bytes.now) }
{
    let mut opens = Seq::new(alloc);
    let mut bodies = Seq::new(alloc);
    let mut left = relocs;
    let mut rest = bytes;
    for _ in 0..count {
        let (body, behind, after) = code_body_at(alloc, &mut opens, start, left, end, rest)?;
        bodies.push(body)?;
        left = behind;
        rest = after;
    }
    Ok((bodies, rest))
}

/// The bodies that are all the bytes of a payload (Core 5.5.13), which stands at this place of the
/// object. The relocations are those of the code section.
#[tactic(auto, unfolding(crate::specs::Turns::entries_at))]
pub fn bodies_at(
    alloc: Global,
    start: u64,
    relocs: &[Reloc],
    end: usize,
    payload: &[u8],
) -> Result<Seq<CodeBody>, ReadFault>
    requires within { length payload.now ≤ end }
    requires few { end ≤ 2 ^ 30 }
    ensures { Gives (λ x. x) result (entries_at (code_body_at start) (left_behind start) relocs.now end payload.now) }
{
    let (count, rest) = u32_at(end, payload)?;
    let (bodies, rest) = many_bodies(alloc, start, relocs, count, end, rest)?;
    none_at(end, rest)?;
    Ok(bodies)
}
