//! Which segments fit (Core 4.5.4: instantiation refuses a module with one that doesn't).
ghost use Rattle.std.specs.Prelude.{◌≡◌, ◌<◌, ◌^◌, length, IfOk};
ghost use Rattle.run_rules.specs.Modules.{fits_at as fits_at_of, offset_in};
ghost use Rattle.run_rules.specs.Modules.{is_first as is_first_of};
ghost use Rattle.run_rules.specs.Modules.{element_fits as element_fits_of};
ghost use Rattle.run_rules.specs.Modules.{segment_fits as segment_fits_of};
ghost use Rattle.run_modules.specs.Fits.{first_not, or_next, first_outside as first_outside_of};

use crate::cells::{expr_value, first_values};
use crate::imported::{first_pages, first_slots};
use run_rules::{Session, Value};
use std::alloc::Global;
use wasm_module::{DataSegment, Element, Module};
use wl_base::OutOfMemory;

/// The bytes of a page.
const PAGE: u64 = 65_536;

/// Whether so many items from an offset on fit.
fn fits_at(room: u64, offset: Option<Value>, count: usize) -> bool
    ensures { result ≡ fits_at_of room (offset_in offset) count }
{
    match offset {
        Some(Value::I32(at)) => match (at as u64).checked_add(count as u64) {
            Some(end) => end <= room,
            None => false,
        },
        _ => false,
    }
}

/// Whether an index names the first memory or table.
fn is_first(index: Option<u32>) -> bool
    ensures { result ≡ is_first_of index }
{
    match index {
        Some(n) => n == 0,
        None => true,
    }
}

fn element_fits(firsts: &[Value], room: u64, element: &Element) -> bool
    ensures { result ≡ element_fits_of firsts.now room element.now }
{
    let fits = fits_at(
        room,
        expr_value(firsts, element.offset),
        element.functions.as_slice().len(),
    );
    is_first(element.table) && fits
}

fn segment_fits(firsts: &[Value], room: u64, segment: &DataSegment) -> bool
    ensures { result ≡ segment_fits_of firsts.now room segment.now }
{
    let fits = fits_at(
        room,
        expr_value(firsts, segment.offset),
        segment.bytes.as_slice().len(),
    );
    is_first(segment.memory) && fits
}

/// The first element segment that doesn't fit a table of so many slots.
fn first_element(firsts: &[Value], room: u64, elements: &[Element]) -> Option<usize>
    ensures { result ≡ first_not (element_fits_of firsts.now room) 0 elements.now }
{
    for i in 0..elements.len() {
        if !element_fits(firsts, room, &elements[i]) {
            return Some(i);
        }
    }
    None
}

/// The number of the first data segment that doesn't fit a memory of so many bytes, where the first segment has
/// this number.
fn first_segment(firsts: &[Value], room: u64, from: u64, segments: &[DataSegment]) -> Option<u64>
    requires { from < 2 ^ 63 }
    ensures { result ≡ first_not (segment_fits_of firsts.now room) from segments.now }
{
    for i in 0..segments.len() {
        if !segment_fits(firsts, room, &segments[i]) {
            return Some(from + i as u64);
        }
    }
    None
}

/// Of these element segments and then data segments the first that doesn't fit a table of so many slots, or a
/// memory of so many bytes.
fn outside(
    firsts: &[Value],
    slots: u64,
    bytes: u64,
    elements: &[Element],
    segments: &[DataSegment],
) -> Option<u64>
    ensures { result ≡ or_next
        (first_not (element_fits_of firsts.now slots) 0 elements.now)
        (first_not (segment_fits_of firsts.now bytes) (length elements.now) segments.now) }
{
    match first_element(firsts, slots, elements) {
        Some(i) => Some(i as u64),
        None => first_segment(firsts, bytes, elements.len() as u64, segments),
    }
}

/// Of the element segments and then the data segments of a module, the first that doesn't fit its first table or
/// memory in this session, or has no offset; `None` where the module can run.
///
/// # Errors
/// Want of memory.
#[tactic(auto, unfolding(crate::specs::Fits::first_outside))]
pub fn first_outside(
    alloc: Global,
    session: &Session,
    m: &Module,
) -> Result<Option<u64>, OutOfMemory>
    ensures { IfOk result (λ outside. outside ≡ first_outside_of session.now m.now) }
{
    let firsts = first_values(alloc, session, m.imports.as_slice())?;
    let slots = first_slots(m.imports.as_slice(), m.tables.as_slice()) as u64;
    let pages = first_pages(session, m.imports.as_slice(), m.memories.as_slice()) as u64;
    let elements = m.elements.as_slice();
    let segments = m.data_segments.as_slice();
    Ok(outside(firsts.as_slice(), slots, PAGE * pages, elements, segments))
}
