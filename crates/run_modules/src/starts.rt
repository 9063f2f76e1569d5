//! The table and the memory at first, with one segment after another (Core 4.5.4).
ghost use Rattle.std.specs.Prelude.{◌≡◌, ◌+◌, ◌≤◌, ◌++◌, true, Some, map, take, drop, length, OnOk};
ghost use Rattle.std.specs.List.{list_all};
ghost use Rattle.run_rules.specs.Memory.{written};
ghost use Rattle.run_rules.specs.Modules.{with_element, with_elements as with_elements_of};
ghost use Rattle.run_rules.specs.Modules.{with_segment as with_segment_of};
ghost use Rattle.run_rules.specs.Modules.{with_segments as with_segments_of, element_fits};
ghost use Rattle.run_rules.specs.Modules.{segment_fits};

use crate::cells::expr_value;
use run_rules::Value;
use std::alloc::Global;
use wasm_module::{DataSegment, Element};
use wl_base::OutOfMemory;

/// Writes functions from a slot on.
fn write_functions(
    alloc: Global,
    slots: &mut [Option<u32>],
    at: usize,
    functions: &[u32],
) -> Result<(), OutOfMemory>
    requires { at + length functions.now ≤ length slots.old }
    ensures { OnOk result
        (slots.new ≡ take at slots.old ++ map Some functions.now ++ drop (at + length functions.now)
        slots.old) }
{
    let mut entries = Vec::new(alloc);
    for function in functions {
        entries.push(Some(*function))?;
    }
    slots[at..at + entries.len()].copy_from_slice(entries.as_slice());
    Ok(())
}

/// The slots with an element segment.
fn add_element(
    alloc: Global,
    firsts: &[Value],
    element: &Element,
    slots: &mut [Option<u32>],
) -> Result<(), OutOfMemory>
    requires { element_fits firsts.now (length slots.old) element.now ≡ true }
    ensures { OnOk result (slots.new ≡ with_element firsts.now element.now slots.old) }
{
    match expr_value(firsts, element.offset) {
        Some(Value::I32(at)) => write_functions(
            alloc,
            slots,
            at as usize,
            element.functions.as_slice(),
        ),
        _ => Ok(()),
    }
}

/// The slots with all element segments.
pub(crate) fn add_elements(
    alloc: Global,
    firsts: &[Value],
    elements: &[Element],
    slots: &mut [Option<u32>],
) -> Result<(), OutOfMemory>
    requires { list_all (element_fits firsts.now (length slots.old)) elements.now ≡ true }
    ensures { OnOk result (slots.new ≡ with_elements_of firsts.now elements.now slots.old) }
{
    for element in elements {
        add_element(alloc, firsts, element, slots)?;
    }
    Ok(())
}

/// Writes bytes into the memory, from an address on.
pub fn write_bytes(memory: &mut [u8], at: usize, bytes: &[u8])
    requires { at + length bytes.now ≤ length memory.old }
    ensures { memory.new ≡ written at bytes.now memory.old }
{
    memory[at..at + bytes.len()].copy_from_slice(bytes);
}

/// The memory with a data segment.
fn add_segment(firsts: &[Value], segment: &DataSegment, memory: &mut [u8])
    requires { segment_fits firsts.now (length memory.old) segment.now ≡ true }
    ensures { memory.new ≡ with_segment_of firsts.now segment.now memory.old }
{
    if let Some(Value::I32(at)) = expr_value(firsts, segment.offset) {
        write_bytes(memory, at as usize, segment.bytes.as_slice());
    }
}

/// The memory with all data segments.
pub(crate) fn add_segments(firsts: &[Value], segments: &[DataSegment], memory: &mut [u8])
    requires { list_all (segment_fits firsts.now (length memory.old)) segments.now ≡ true }
    ensures { memory.new ≡ with_segments_of firsts.now segments.now memory.old }
{
    for segment in segments {
        add_segment(firsts, segment, memory);
    }
}
