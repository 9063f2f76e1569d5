//! How long the object is, before anything of it is written.
ghost use Rattle.std.specs.Prelude.{◌≡◌, ◌+◌, ℕ, true, length, codes, IfOk};
ghost use Rattle.std.specs.List.{list_all};
ghost use Rattle.leb_codec.specs.Shortest.{u32 as shortest_u32};
ghost use Rattle.image_emit.specs.Bytes.{sized};
ghost use Rattle.partial_rules.specs.Relocatable.{reloc_section};
ghost use Rattle.partial_bytes.specs.declared.part.PartKind.TheVariants as kinds;
ghost use Rattle.partial_bytes.specs.Measured.{IsSized, IsMeasured, lens_in};
ghost use Rattle.partial_bytes.specs.Told.{TreeFits};
ghost use Rattle.partial_bytes.specs.Written.{payload_len, parts_section, relocs_in, part_fits, code_at, data_at};

use crate::lengths::{len_at, lens_of};
use crate::part::{PartKind, head_size};
use crate::sections::{code_at, front_size, linking_size, present};
use crate::sums::{exact, sum};
use crate::tree::{Part, Tree};
use image_emit::put::{sized_size, u32_size};
use std::alloc::Global;
use std::thread::Threads;
use wl_base::{OutOfMemory, Seq};
use wl_fan::Workers;

/// The sizes of a section of parts, and of its relocations.
#[derive(Clone, Copy)]
pub struct SectionSize {
    /// How many bytes the payload has.
    pub payload: u64,
    /// How many relocations there are.
    pub count: u64,
    /// How many bytes their entries have.
    pub entries: u64,
}

/// The length of the object, and what else is known by then.
#[derive(Drop)]
pub struct Measured {
    /// How many bytes the object has.
    pub len: u64,
    /// The code section.
    pub bodies: SectionSize,
    /// The data section.
    pub segments: SectionSize,
    /// How many bytes the entries of each body's relocations have.
    pub body_lens: Seq<u64>,
    /// And those of each data segment's.
    pub segment_lens: Seq<u64>,
}

/// The sizes of a section of these parts, by the lengths of their entries.
fn section_size(
    kind: PartKind,
    parts: &[Part<'_>],
    lens: &[u64],
) -> Result<SectionSize, OutOfMemory>
    requires { lens.now ≡ lens_in kind parts.now }
    ensures { IfOk result (IsSized kind parts.now) }
{
    let mut at = u32_size(parts.len() as u64);
    let mut count = 0;
    let mut entries = 0;
    for number in 0..parts.len() {
        let part = &parts[number];
        let from = sum(at, head_size(kind, part))?;
        let size = exact(len_at(lens, number))?;
        entries = sum(entries, size)?;
        count = sum(count, part.named.len() as u64)?;
        at = sum(from, part.bytes.len() as u64)?;
    }
    Ok(SectionSize {
        payload: at,
        count,
        entries,
    })
}

/// The length of a section of parts whose payload has so many bytes.
fn section_len(kind: PartKind, parts: &[Part<'_>], payload: u64) -> Result<u64, OutOfMemory>
    requires payload { payload ≡ payload_len kind parts.now }
    requires fits { list_all part_fits parts.now ≡ true }
    ensures { IfOk result (λ n. (id : ℕ) → n ≡ length (parts_section id kind parts.now)) }
{
    if parts.is_empty() {
        return Ok(0);
    }
    sum(1 + u32_size(payload), payload)
}

/// How many bytes the payload of a section of relocations has, for a section at a place.
pub fn reloc_payload(name: &[u8], target: u32, size: SectionSize) -> Result<u64, OutOfMemory>
    ensures { IfOk result (λ n. n ≡ length (sized name.now) + length (shortest_u32 target) + length (shortest_u32 size.count) + size.entries) }
{
    let name = exact(sized_size(name))?;
    let numbers = u32_size(u64::from(target)) + u32_size(size.count);
    let head = sum(name, numbers)?;
    sum(head, size.entries)
}

/// The length of a section of relocations.
fn reloc_len(
    kind: PartKind,
    parts: &[Part<'_>],
    name: &[u8],
    target: u32,
    size: SectionSize,
) -> Result<u64, OutOfMemory>
    requires { IsSized kind parts.now size }
    ensures { IfOk result (λ n. n ≡ length (reloc_section name.now target (relocs_in kind parts.now))) }
{
    if size.count == 0 {
        return Ok(0);
    }
    let payload = reloc_payload(name, target, size)?;
    sum(1 + u32_size(payload), payload)
}

/// The length of both sections of relocations.
fn relocs_len(
    tree: &Tree<'_>,
    bodies: SectionSize,
    segments: SectionSize,
) -> Result<u64, OutOfMemory>
    requires bodies { IsSized kinds.Body tree.now.bodies.now bodies }
    requires segments { IsSized kinds.Segment tree.now.segments.now segments }
    ensures { IfOk result (λ n. n ≡ length (reloc_section (codes "reloc.CODE") (code_at tree.now) (relocs_in kinds.Body tree.now.bodies.now)) + length (reloc_section (codes "reloc.DATA") (data_at tree.now) (relocs_in kinds.Segment tree.now.segments.now))) }
{
    let target = code_at(tree);
    let name = b"reloc.CODE".as_slice();
    let code = reloc_len(PartKind::Body, tree.bodies, name, target, bodies)?;
    let target = target + present(tree.bodies);
    let name = b"reloc.DATA".as_slice();
    let data = reloc_len(PartKind::Segment, tree.segments, name, target, segments)?;
    sum(code, data)
}

/// The exact length of the object, and the sizes of its sections.
///
/// It asks that the windows of relocations lie in their parts. `OutOfMemory` is the answer too where
/// 64 bits don't hold the length.
pub fn measure<R: Threads + Sync>(
    rt: &R,
    alloc: Global,
    tree: &Tree<'_>,
    workers: Workers,
) -> Result<Measured, OutOfMemory>
    requires { TreeFits tree.now }
    ensures { IfOk result (IsMeasured tree.now) }
{
    let body_lens = lens_of(rt, alloc, PartKind::Body, tree.bodies, workers)?;
    let segment_lens = lens_of(rt, alloc, PartKind::Segment, tree.segments, workers)?;
    let bodies = section_size(PartKind::Body, tree.bodies, body_lens.as_slice())?;
    let segments = section_size(PartKind::Segment, tree.segments, segment_lens.as_slice())?;
    let front = exact(front_size(tree))?;
    let code = section_len(PartKind::Body, tree.bodies, bodies.payload)?;
    let data = section_len(PartKind::Segment, tree.segments, segments.payload)?;
    let linking = exact(linking_size(tree))?;
    let relocs = relocs_len(tree, bodies, segments)?;
    let len = sum(sum(sum(sum(front, code)?, data)?, linking)?, relocs)?;
    Ok(Measured {
        len,
        bodies,
        segments,
        body_lens,
        segment_lens,
    })
}
