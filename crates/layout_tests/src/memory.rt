//! Addresses of segments, stack and heap, and the first number that passes its limit.
ghost use Rattle.std.specs.Prelude.{IsTrue, ◌↔◌};
ghost use Rattle.memory_layout.specs.Steps.{AreAligned, AreRules};

use memory_layout::{MemoryRules, SegmentShape, place};
use std::alloc::Global;
use wl_base::{LayoutError, What};

/// The rules with a stack of 65,536 bytes and no more words.
const DEFAULTS: MemoryRules = MemoryRules::Absolute {
    stack_first: false,
    base: None,
    stack: 65_536,
    initial: 0,
    max: None,
};

/// The same, with the stack below all segments.
const STACK_FIRST: MemoryRules = MemoryRules::Absolute {
    stack_first: true,
    base: None,
    stack: 65_536,
    initial: 0,
    max: None,
};

/// A base of 16, and a memory of just four pages.
const FOUR_PAGES: MemoryRules = MemoryRules::Absolute {
    stack_first: false,
    base: Some(16),
    stack: 65_536,
    initial: 262_144,
    max: Some(262_144),
};

/// A memory of one page at most.
const ONE_PAGE: MemoryRules = MemoryRules::Absolute {
    stack_first: false,
    base: None,
    stack: 65_536,
    initial: 0,
    max: Some(65_536),
};

/// The greatest stack that ends below 2^32.
const GREATEST_STACK: MemoryRules = MemoryRules::Absolute {
    stack_first: false,
    base: None,
    stack: 4_294_966_256,
    initial: 0,
    max: None,
};

/// A stack of 16 bytes more.
const MORE_STACK: MemoryRules = MemoryRules::Absolute {
    stack_first: false,
    base: None,
    stack: 4_294_966_272,
    initial: 0,
    max: None,
};

fn solid(len: u32, align: u32) -> SegmentShape {
    SegmentShape {
        len,
        align,
        zero: false,
    }
}

/// Whether the alignments are such as a call may be asked for.
fn are_aligned(segments: &[SegmentShape]) -> bool
    ensures { IsTrue result ↔ AreAligned segments.now }
{
    segments.iter().all(|segment| segment.align <= 31)
}

/// Whether the segments get these addresses, and base, data's end, stack, heap base and pages are
/// these.
fn stand(
    alloc: Global,
    rules: &MemoryRules,
    segments: &[SegmentShape],
    addresses: &[u32],
    numbers: [u32; 6],
) -> bool
    requires { AreRules rules.now }
{
    are_aligned(segments)
        && match place(alloc, rules, segments) {
            Ok(places) => {
                places.addresses.as_slice() == addresses
                    && numbers
                        == [
                            places.base,
                            places.data_end,
                            places.stack_low,
                            places.stack_high,
                            places.heap_base,
                            places.pages,
                        ]
            }
            Err(_) => false,
        }
}

/// Whether this is the first number that passes its limit.
fn passes(
    alloc: Global,
    rules: &MemoryRules,
    segments: &[SegmentShape],
    what: What,
    needed: i64,
) -> bool
    requires { AreRules rules.now }
{
    are_aligned(segments)
        && match place(alloc, rules, segments) {
            Ok(_) => false,
            Err(fault) => fault == LayoutError::Overflow { what, needed },
        }
}

fn one_stands(alloc: Global) -> bool {
    let numbers = [1024, 1028, 1040, 66_576, 66_576, 2];
    stand(alloc, &DEFAULTS, &[solid(4, 2)], &[1024], numbers)
}

fn two_stand(alloc: Global) -> bool {
    let two = [solid(3, 0), solid(4, 3)];
    let first = [65_536, 65_548, 0, 65_536, 65_552, 2];
    let last = [1024, 1036, 1040, 66_576, 66_576, 2];
    let relative = [0, 12, 0, 0, 0, 0];
    stand(alloc, &DEFAULTS, &two, &[1024, 1032], last)
        && stand(alloc, &STACK_FIRST, &two, &[65_536, 65_544], first)
        && stand(alloc, &MemoryRules::Relative, &two, &[0, 8], relative)
}

#[test]
fn segments_stand_behind_one_another(rt: HostRuntime) {
    assert!(rt; one_stands(rt.alloc()));
    assert!(rt; two_stand(rt.alloc()));
}

/// Zero segments stand last, addresses come in the order given, and an initial memory of four pages
/// is kept, at a base of 16.
fn three_stand(alloc: Global) -> bool {
    let zero = SegmentShape {
        len: 5,
        align: 0,
        zero: true,
    };
    let three = [zero, solid(3, 0), solid(4, 3)];
    let numbers = [16, 33, 48, 65_584, 65_584, 4];
    let relative = [0, 17, 0, 0, 0, 0];
    stand(alloc, &FOUR_PAGES, &three, &[28, 16, 24], numbers)
        && stand(alloc, &MemoryRules::Relative, &three, &[12, 0, 8], relative)
}

#[test]
fn zero_segments_stand_last(rt: HostRuntime) {
    assert!(rt; three_stand(rt.alloc()));
}

fn data_end_passes(alloc: Global) -> bool {
    let large = [solid(u32::MAX, 0), solid(1, 0)];
    let end = What::DataEnd;
    passes(alloc, &MemoryRules::Relative, &large, end, 4_294_967_296)
        && passes(alloc, &DEFAULTS, &large, end, 4_294_968_319)
}

/// The greatest stack that there is, and one of 16 bytes more.
fn heap_base_passes(alloc: Global) -> bool {
    let numbers = [1024, 1024, 1024, 4_294_967_280, 4_294_967_280, 65_536];
    let base = What::HeapBase;
    stand(alloc, &GREATEST_STACK, &[], &[], numbers)
        && passes(alloc, &MORE_STACK, &[], base, 4_294_967_296)
}

#[test]
fn the_first_number_that_passes(rt: HostRuntime) {
    assert!(rt; data_end_passes(rt.alloc()));
    assert!(rt; heap_base_passes(rt.alloc()));
    assert!(rt; passes(rt.alloc(), &ONE_PAGE, &[], What::MaxMemory, 131_072));
}
