//! How a file is cut into sections, and the first that is at fault.

use std::alloc::Global;
use test_kit::module_of;
use wasm_sections::{FrameFault, SectionSpan, frame};
use wl_base::{OutOfMemory, Seq, Span};

/// Whether these bytes are cut into these sections.
fn is_cut(alloc: Global, bytes: &[u8], want: &[SectionSpan]) -> bool {
    match frame(alloc, bytes) {
        Ok(found) => found.as_slice() == want,
        Err(_) => false,
    }
}

/// Whether these bytes behind the header are.
fn are_sections(alloc: Global, after: &[u8], want: &[SectionSpan]) -> bool {
    match module_of(alloc, after) {
        Ok(bytes) => is_cut(alloc, bytes.as_slice(), want),
        Err(_) => false,
    }
}

fn section(id: u8, start: u64, len: u64) -> SectionSpan {
    let payload = Span { start, len };
    SectionSpan { id, payload }
}

/// All sections that aren't custom, in their order, each of them empty.
fn add_all(bytes: &mut Seq<u8>, sections: &mut Seq<SectionSpan>) -> Result<(), OutOfMemory> {
    let mut start = 10;
    for id in [1, 2, 3, 4, 5, 13, 6, 7, 8, 9, 12, 10, 11] {
        bytes.extend_from_slice(&[id, 0])?;
        sections.push(section(id, start, 0))?;
        start = start.wrapping_add(2);
    }
    Ok(())
}

fn all_are_cut(alloc: Global) -> Result<bool, OutOfMemory> {
    let mut bytes = module_of(alloc, &[])?;
    let mut want = Seq::new(alloc);
    add_all(&mut bytes, &mut want)?;
    Ok(is_cut(alloc, bytes.as_slice(), want.as_slice()))
}

/// No sections; and three, with a custom section between and a size of two bytes.
fn some_are_cut(alloc: Global) -> bool {
    let bytes = [1, 1, 9, 0, 0x82, 0x00, 1, 0x61, 10, 0];
    let want = [section(1, 10, 1), section(0, 14, 2), section(10, 18, 0)];
    are_sections(alloc, &[], &[]) && are_sections(alloc, &bytes, &want)
}

#[test]
fn sections_cover_the_file(rt: HostRuntime) {
    assert!(rt; some_are_cut(rt.alloc()));
    assert!(rt; all_are_cut(rt.alloc()) == Ok(true));
}

/// The fault of these bytes, and none where they are cut into sections.
fn fault_of(alloc: Global, bytes: &[u8]) -> Option<FrameFault> {
    match frame(alloc, bytes) {
        Ok(_) => None,
        Err(fault) => Some(fault),
    }
}

/// Whether the header and these bytes behind it have this fault.
fn is_fault(alloc: Global, after: &[u8], want: Option<FrameFault>) -> bool {
    match module_of(alloc, after) {
        Ok(bytes) => fault_of(alloc, bytes.as_slice()) == want,
        Err(_) => false,
    }
}

fn headers_are_refused(alloc: Global) -> bool {
    fault_of(alloc, b"\0asm\x01\0\0".as_slice()) == Some(FrameFault::BadHeader)
        && fault_of(alloc, b"\0asm\x02\0\0\0".as_slice()) == Some(FrameFault::BadHeader)
}

/// Sizes that run past the end, are missing, aren't whole, or are no u32.
fn sizes_are_refused(alloc: Global) -> bool {
    let size = Some(FrameFault::BadSize(8));
    is_fault(alloc, &[1, 6, 0], size)
        && is_fault(alloc, &[1], size)
        && is_fault(alloc, &[1, 0x80], size)
        && is_fault(alloc, &[1, 0x80, 0x80, 0x80, 0x80, 0x10], size)
}

/// Sections that stand twice, and too late.
fn orders_are_refused(alloc: Global) -> bool {
    let order = Some(FrameFault::BadOrder(10));
    is_fault(alloc, &[1, 0, 1, 0], order)
        && is_fault(alloc, &[6, 0, 13, 0], order)
        && is_fault(alloc, &[10, 0, 12, 0], order)
        && is_fault(alloc, &[2, 0, 0, 0, 1, 0], Some(FrameFault::BadOrder(12)))
}

/// The size is judged before the order, and the first section at fault decides.
fn the_first_is_told(alloc: Global) -> bool {
    is_fault(alloc, &[1, 0, 1, 1], Some(FrameFault::BadSize(10)))
        && is_fault(alloc, &[2, 0, 1, 0, 14, 0], Some(FrameFault::BadOrder(10)))
        // No such id, whatever follows, behind a section that is whole.
        && is_fault(alloc, &[1, 0, 14], Some(FrameFault::BadId(10)))
        && is_fault(alloc, &[0, 0, 0, 0], None)
}

#[test]
fn the_first_section_at_fault_is_told(rt: HostRuntime) {
    assert!(rt; headers_are_refused(rt.alloc()));
    assert!(rt; sizes_are_refused(rt.alloc()));
    assert!(rt; orders_are_refused(rt.alloc()));
    assert!(rt; the_first_is_told(rt.alloc()));
}
