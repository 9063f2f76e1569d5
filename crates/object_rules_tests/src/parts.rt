//! The parts of an object, section by section, and the first section that is at fault.

use object_parts::{DataPart, Parts, PartsFault, SectionStop, parts_of};
use std::alloc::Global;
use test_kit::calling_object;
use wasm_grammar::Stop;
use wasm_sections::frame;
use wl_base::{Item, Span};

/// The parts of a small object; `None` where it isn't cut into sections.
fn parts(alloc: Global, bytes: &[u8]) -> Option<Result<Parts, PartsFault>> {
    if bytes.len() > 1000 {
        return None;
    }
    let all = frame(alloc, bytes).ok()?;
    if all.len() > 100 {
        return None;
    }
    Some(parts_of(alloc, all.as_slice(), bytes))
}

/// What these tests look at in an object's parts.
#[derive(Clone, Copy)]
struct Summary {
    /// How many types, functions, bodies, segments and sections of relocations there are.
    lengths: [usize; 5],
    /// How many element segments and exports there are.
    others: (usize, usize),
    /// Whether the metadata are there, and in order.
    metadata: (bool, bool),
    /// Where the first two bodies stand, and whether their relocations fit them.
    bodies: [Option<(Span, bool)>; 2],
    /// Where the value of the first global stands.
    global_span: Option<Span>,
    /// The first segment.
    segment: Option<DataPart>,
    /// The target and the number of entries of the first section of relocations.
    relocs: Option<(u32, usize)>,
}

fn body_of(parts: &Parts, at: usize) -> Option<(Span, bool)> {
    let body = parts.bodies.get(at)?;
    Some((body.span, body.windows.is_ok()))
}

fn global_of(parts: &Parts) -> Option<Span> {
    Some(parts.globals.get(0)?.span)
}

fn relocs_of(parts: &Parts) -> Option<(u32, usize)> {
    let relocs = parts.relocs.get(0)?;
    Some((relocs.target, relocs.entries.len()))
}

fn summary_of(parts: &Parts) -> Summary {
    Summary {
        lengths: [
            parts.types.len(),
            parts.functions.len(),
            parts.bodies.len(),
            parts.segments.len(),
            parts.relocs.len(),
        ],
        others: (parts.elements.len(), parts.exports.len()),
        metadata: (parts.linking.is_some(), parts.in_order),
        bodies: [body_of(parts, 0), body_of(parts, 1)],
        global_span: global_of(parts),
        segment: parts.segments.get(0).copied(),
        relocs: relocs_of(parts),
    }
}

/// What is told of an object; `None` where it is refused.
fn told(alloc: Global, bytes: &[u8]) -> Option<Summary> {
    match parts(alloc, bytes)? {
        Ok(parts) => Some(summary_of(&parts)),
        Err(_) => None,
    }
}

fn lengths(alloc: Global, bytes: &[u8]) -> Option<[usize; 5]> {
    Some(told(alloc, bytes)?.lengths)
}

fn metadata(alloc: Global, bytes: &[u8]) -> Option<(bool, bool)> {
    Some(told(alloc, bytes)?.metadata)
}

fn bodies(alloc: Global, bytes: &[u8]) -> Option<[Option<(Span, bool)>; 2]> {
    Some(told(alloc, bytes)?.bodies)
}

fn global_span(alloc: Global, bytes: &[u8]) -> Option<Span> {
    told(alloc, bytes)?.global_span
}

fn segment(alloc: Global, bytes: &[u8]) -> Option<DataPart> {
    told(alloc, bytes)?.segment
}

fn others(alloc: Global, bytes: &[u8]) -> Option<(usize, usize)> {
    Some(told(alloc, bytes)?.others)
}

fn relocs(alloc: Global, bytes: &[u8]) -> Option<(u32, usize)> {
    told(alloc, bytes)?.relocs
}

/// The section that isn't spelled whole.
fn fault(alloc: Global, bytes: &[u8]) -> Option<PartsFault> {
    match parts(alloc, bytes)? {
        Ok(_) => None,
        Err(fault) => Some(fault),
    }
}

/// This stands in this section.
fn stopped(section: u32, stop: Stop) -> Option<PartsFault> {
    Some(PartsFault::Stopped(SectionStop { section, stop }))
}

/// Whether this is the object of two functions, of which `f` calls `g`, which gives 7: where its bodies stand, and which section is its
/// code.
fn are_calls(alloc: Global, bytes: &[u8], starts: [u64; 2], code: u32) -> bool {
    let [f, g] = starts;
    let both = [
        Some((Span { start: f, len: 8 }, true)),
        Some((Span { start: g, len: 4 }, true)),
    ];
    lengths(alloc, bytes) == Some([1, 2, 2, 0, 1])
        && metadata(alloc, bytes) == Some((true, true))
        && bodies(alloc, bytes) == Some(both)
        && relocs(alloc, bytes) == Some((code, 1))
}

/// The code before its relocations, and behind them.
fn calls_are_read(alloc: Global) -> bool {
    let late =
        b"\0asm\x01\0\0\0\x01\x05\x01`\0\x01\x7f\x03\x03\x02\0\0\0\x16\x07linking\x02\x08\x0b\x02\0\0\0\x01f\0\0\x01\x01g\0\x10\x0areloc.CODE\x04\x01\0\x04\x01\x0a\x0f\x02\x08\0\x10\x81\x80\x80\x80\0\x0b\x04\0A\x07\x0b".as_slice();
    are_calls(alloc, calling_object(), [24, 33], 2) && are_calls(alloc, late, [66, 75], 4)
}

/// Relocations before the section `linking`, a second one of those, and relocations of a custom section, which aren't read.
fn metadata_are_read(alloc: Global) -> bool {
    let early = b"\0asm\x01\0\0\0\0\x0d\x0areloc.CODE\x02\0\0\x09\x07linking\x02".as_slice();
    let twice = b"\0asm\x01\0\0\0\0\x09\x07linking\x02\0\x09\x07linking\x02".as_slice();
    let custom =
        b"\0asm\x01\0\0\0\0\x09\x07linking\x02\0\x07\x06.debug\0\x0f\x0creloc..debug\x01\xff".as_slice();
    metadata(alloc, early) == Some((true, false))
        && metadata(alloc, twice) == Some((true, false))
        && relocs(alloc, custom) == Some((1, 0))
}

/// A global and a segment; an element segment and two exports.
fn items_are_read(alloc: Global) -> bool {
    let data = b"\0asm\x01\0\0\0\x06\x06\x01\x7f\0A*\x0b\x0b\x08\x01\0A\0\x0b\x02xy".as_slice();
    let memory = None;
    let span = Span { start: 24, len: 2 };
    let exports =
        b"\0asm\x01\0\0\0\x07\x09\x02\x01a\0\0\x01m\x02\0\x09\x07\x01\0A\x01\x0b\x01\x01".as_slice();
    global_span(alloc, data) == Some(Span { start: 13, len: 3 })
        && segment(alloc, data) == Some(DataPart { memory, span })
        && others(alloc, exports) == Some((1, 2))
}

#[test]
fn sections_are_read_in_file_order(rt: HostRuntime) {
    assert!(rt; calls_are_read(rt.alloc()));
    assert!(rt; metadata_are_read(rt.alloc()));
    assert!(rt; items_are_read(rt.alloc()));
}

fn the_first_fault_is_told(alloc: Global) -> bool {
    // the second section has limits that aren't linked, the third is broken
    let limits =
        b"\0asm\x01\0\0\0\x01\x04\x01`\0\0\x02\x09\x01\x03env\x01m\x02\x09\x03\x01\x01".as_slice();
    let foreign = Stop::Foreign(Item::LimitsFlag(9));
    // a place counts from the object's first byte
    let value = b"\0asm\x01\0\0\0\x01\x06\x01`\x02\x7f\x01{".as_slice();
    fault(alloc, limits) == stopped(1, foreign)
        && fault(alloc, value) == stopped(0, Stop::Broken(14))
}

#[test]
fn the_first_section_at_fault_is_told(rt: HostRuntime) {
    assert!(rt; the_first_fault_is_told(rt.alloc()));
}
