//! Placing segments.
ghost use Rattle.std.specs.Prelude.{◌≡◌, ◌/◌, ◌^◌, ◌≤◌, ◌<◌, IfOk, IfSome, []};
ghost use Rattle.wl_base.specs.Answers.{Answers};
ghost use Rattle.memory_layout.specs.Memory.{up, base_of, solid, places_by, memory_of, too_much};
ghost use Rattle.memory_layout.specs.Steps.{AreAligned, AreRules, IsPages, placed_after, run, placed_both, pages_for, around_of};

use crate::{MemoryRules, Places, SegmentShape};
use std::alloc::Global;
use wl_base::{LayoutError, OutOfMemory, Seq, What};

/// A page of memory has two to this power bytes (Core 4.2.8).
const PAGE_POWER: u32 = 16;

const PAGE_BYTES: u64 = 65_536;

/// The stack and the heap begin at multiples of two to this power bytes.
const STACK_POWER: u32 = 4;

/// Places segments one behind the other, those that aren't zero first, and the stack and the heap
/// around them.
///
/// It is refused with the first of these numbers that passes its limit: `DataEnd`, the end of a
/// segment above 2^32 - 1, in the order of placing; `HeapBase`, above 2^32 - 1; `MaxMemory`, the
/// pages in bytes above the greatest memory.
pub fn place(
    alloc: Global,
    rules: &MemoryRules,
    segments: &[SegmentShape],
) -> Result<Places, LayoutError>
    requires rules { AreRules rules.now }
    requires aligned { AreAligned segments.now }
    ensures { Answers result (memory_of rules.now segments.now) }
{
    let base = base_of(rules);
    let zeros_from = end_of_solid(base, segments)?;
    let (addresses, data_end) = addresses(alloc, base, zeros_from, segments)?;
    around(rules, base, addresses, data_end)
}

/// Where data begin.
fn base_of(rules: &MemoryRules) -> u32
    ensures { result ≡ base_of rules.now }
{
    match *rules {
        MemoryRules::Relative => 0,
        MemoryRules::Absolute {
            stack_first: false,
            base,
            ..
        } => base.unwrap_or(1024),
        MemoryRules::Absolute {
            stack_first: true,
            base,
            stack,
            ..
        } => stack.max(base.unwrap_or(0)),
    }
}

/// The least multiple of two to this power that is at least `at`.
#[inline(always)]
fn align_to_power(at: u32, power: u32) -> u64
    requires { power ≤ 31 }
    ensures { result ≡ up at (2 ^ power) }
{
    let size = 1u64 << power;
    ((u64::from(at) + (size - 1)) >> power) << power
}

/// The address and the end of a segment that is placed behind `at`.
#[inline(always)]
fn placed_after(at: u32, segment: &SegmentShape) -> Result<(u32, u32), LayoutError>
    requires { segment.now.align ≤ 31 }
    ensures { Answers result (placed_after at segment.now) }
{
    let address = align_to_power(at, segment.align);
    let end = address + u64::from(segment.len);
    if end > u64::from(u32::MAX) {
        return Err(overflow(What::DataEnd, end));
    }
    Ok((address as u32, end as u32))
}

/// Where the segments that aren't zero end.
fn end_of_solid(base: u32, segments: &[SegmentShape]) -> Result<u32, LayoutError>
    requires { AreAligned segments.now }
    ensures { Answers result (run base (solid segments.now)) }
{
    let mut at = base;
    for segment in segments {
        if !segment.zero {
            let (_, end) = placed_after(at, segment)?;
            at = end;
        }
    }
    Ok(at)
}

/// Room for addresses.
fn room(alloc: Global, count: usize) -> Result<Seq<u32>, OutOfMemory>
    ensures { IfOk result (λ addresses. addresses ≡ []) }
{
    Ok(Seq::from_vec(Vec::with_capacity(alloc, count)?))
}

/// The address of each segment, where those that aren't zero go on from `next` and the others from
/// `next_zero`; and where the latter end.
fn addresses(
    alloc: Global,
    next: u32,
    next_zero: u32,
    segments: &[SegmentShape],
) -> Result<(Seq<u32>, u32), LayoutError>
    requires { AreAligned segments.now }
    ensures { Answers result (placed_both next next_zero segments.now) }
{
    let mut next = next;
    let mut next_zero = next_zero;
    let mut addresses = room(alloc, segments.len())?;
    for segment in segments {
        let (address, end) = placed_after(if segment.zero { next_zero } else { next }, segment)?;
        if segment.zero {
            next_zero = end;
        } else {
            next = end;
        }
        addresses.push(address)?;
    }
    Ok((addresses, next_zero))
}

/// The pages up to the heap base, and at least the asked ones.
fn pages_for(heap_base: u32, initial: u64, max: Option<u64>) -> Result<u32, LayoutError>
    requires initial { IsPages initial }
    requires max { IfSome max IsPages }
    ensures { Answers result (pages_for heap_base (initial / 65536) max) }
{
    let pages = (align_to_power(heap_base, PAGE_POWER) / PAGE_BYTES).max(initial / PAGE_BYTES);
    if let Some(max) = max {
        if pages * PAGE_BYTES > max {
            return Err(overflow(What::MaxMemory, pages * PAGE_BYTES));
        }
    }
    Ok(pages as u32)
}

/// The places where the loader chooses the base.
fn relative(addresses: Seq<u32>, data_end: u32) -> Places
    ensures { result ≡ places_by MemoryRules.Relative addresses data_end }
{
    Places {
        addresses,
        base: 0,
        data_end,
        stack_low: 0,
        stack_high: 0,
        heap_base: 0,
        pages: 0,
    }
}

/// What stands around the data.
fn around(
    rules: &MemoryRules,
    base: u32,
    addresses: Seq<u32>,
    data_end: u32,
) -> Result<Places, LayoutError>
    requires rules { AreRules rules.now }
    requires base { base ≡ base_of rules.now }
    ensures { Answers result (around_of rules.now addresses data_end) }
{
    let MemoryRules::Absolute {
        stack_first,
        stack,
        initial,
        max,
        ..
    } = *rules
    else {
        return Ok(relative(addresses, data_end));
    };
    let after_data = align_to_power(data_end, STACK_POWER);
    let (stack_low, stack_high, heap_base) = if stack_first {
        (0, u64::from(stack), after_data)
    } else {
        let high = after_data + u64::from(stack);
        (after_data, high, high)
    };
    if heap_base > u64::from(u32::MAX) {
        return Err(overflow(What::HeapBase, heap_base));
    }
    let pages = pages_for(heap_base as u32, initial, max)?;
    Ok(Places {
        addresses,
        base,
        data_end,
        stack_low: stack_low as u32,
        stack_high: stack_high as u32,
        heap_base: heap_base as u32,
        pages,
    })
}

/// The answer for a number that passes its limit.
fn overflow(what: What, needed: u64) -> LayoutError
    requires { needed < 2 ^ 63 }
    ensures { result ≡ too_much what needed }
{
    LayoutError::Overflow {
        what,
        needed: needed as i64,
    }
}
