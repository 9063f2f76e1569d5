//! The data segments of an object.
ghost use Rattle.std.specs.Prelude.{◌≡◌, drop, map, IfOk, OnOk};
ghost use Rattle.object_columns.specs.Seen.{segment_seen};
ghost use Rattle.object_rules.specs.object_parts.Code.{end_in};
ghost use Rattle.object_file.specs.Objects.{first_info, window_from, segments_from};

use object_columns::{SegmentRef, Segments};
use object_rules::{DataPart, Reloc, SegmentInfo, split_before};
use std::alloc::Global;
use wl_base::{OutOfMemory, Seq, Span};

/// A segment, with the info at its place, or else no name, alignment 1 and no flags.
fn with_info<'a>(
    span: Span,
    infos: &'a [SegmentInfo],
    at: usize,
    windows: &'a [Reloc],
) -> SegmentRef<'a>
    ensures { segment_seen result ≡ record { span = span; info = first_info (drop at infos.now); windows = windows.now } }
{
    match infos.get(at) {
        Some(info) => SegmentRef {
            span,
            name: info.name.as_slice(),
            align: info.align,
            flags: info.flags,
            windows,
        },
        None => SegmentRef {
            span,
            name: &[],
            align: 0,
            flags: 0,
            windows,
        },
    }
}

/// A relocation whose offset counts from this place of the payload.
fn window_from(base: u64, reloc: &Reloc) -> Reloc
    ensures { result ≡ window_from base reloc.now }
{
    let offset = u64::from(reloc.offset).saturating_sub(base) as u32;
    Reloc { offset, ..*reloc }
}

/// Puts the relocations, with offsets that count from this place of the payload, in place of what
/// `windows` has.
fn put_windows(windows: &mut Seq<Reloc>, base: u64, relocs: &[Reloc]) -> Result<(), OutOfMemory>
    ensures { OnOk result (windows.new ≡ map (window_from base) relocs.now) }
{
    windows.truncate(0);
    for reloc in relocs {
        windows.push(window_from(base, reloc))?;
    }
    Ok(())
}

/// How many bytes the names of the segments have.
fn names_in(infos: &[SegmentInfo]) -> usize {
    let mut len: usize = 0;
    for info in infos {
        len = len.saturating_add(info.name.len());
    }
    len
}

/// Where a part of the object ends in a payload that begins at `start`.
fn end_in(start: u64, span: Span) -> u128
    ensures { result ≡ end_in start span }
{
    (u128::from(span.start) + u128::from(span.len)).saturating_sub(u128::from(start))
}

/// The segments with their infos and relocations. The payload of the section begins at `start`, and
/// offsets of relocations count from there.
pub fn segments_from(
    alloc: Global,
    start: u64,
    relocs: &[Reloc],
    infos: &[SegmentInfo],
    parts: &[DataPart],
) -> Result<Segments, OutOfMemory>
    ensures { IfOk result (λ segments. segments ≡ segments_from start relocs.now infos.now parts.now) }
{
    let mut segments = Segments::with_room(alloc, parts.len(), names_in(infos), relocs.len())?;
    let mut windows = Seq::new(alloc);
    let mut left = relocs;
    for (at, part) in parts.iter().enumerate() {
        let span = part.span;
        let (own, behind) = split_before(end_in(start, span), left);
        put_windows(&mut windows, span.start.saturating_sub(start), own)?;
        segments.push(with_info(span, infos, at, windows.as_slice()))?;
        left = behind;
    }
    Ok(segments)
}
