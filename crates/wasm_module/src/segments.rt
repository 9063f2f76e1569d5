//! Reading element and data segments.
ghost use Rattle.wasm_instr.specs.wasm_grammar.Fault.{Reads, Gives};
ghost use Rattle.wasm_module.specs.PartReading.{first_table_at, named_table_at, flagged_element, element_at, first_memory_at, named_memory_at, flagged_data, data_segment_at};

use crate::entries::init_at;
use crate::parts::{DataSegment, Element};
use std::alloc::Global;
use wasm_grammar::{ReadFault, Stop, bytes_at, tag_at, u32_at, vector_at};
use wasm_types::ConstExpr;
use wl_base::{Item, Seq};

/// The functions of table 0 behind the flag, and the bytes after them.
fn first_table_at(
    alloc: Global,
    get: bool,
    end: usize,
    bytes: &[u8],
) -> Result<(Element, &[u8]), ReadFault>
    ensures { Gives (λ x. (x.0, x.1.now)) result (first_table_at get end bytes.now) }
{
    let (offset, rest) = init_at(get, end, bytes)?;
    let (functions, rest) = vector_at(alloc, end, rest)?;
    let table = None;
    Ok((
        Element {
            table,
            offset,
            functions,
        },
        rest,
    ))
}

/// The functions of a table that is named behind the flag, and the bytes after them.
fn named_table_at(
    alloc: Global,
    get: bool,
    end: usize,
    bytes: &[u8],
) -> Result<(Element, &[u8]), ReadFault>
    ensures { Gives (λ x. (x.0, x.1.now)) result (named_table_at get end bytes.now) }
{
    let (table, rest) = u32_at(end, bytes)?;
    let (offset, rest) = init_at(get, end, rest)?;
    let rest = tag_at(0, end, rest)?;
    let (functions, rest) = vector_at(alloc, end, rest)?;
    let table = Some(table);
    Ok((
        Element {
            table,
            offset,
            functions,
        },
        rest,
    ))
}

/// The element segment behind its flag, and the bytes after it.
fn flagged_element(
    alloc: Global,
    get: bool,
    flag: u32,
    end: usize,
    rest: &[u8],
) -> Result<(Element, &[u8]), ReadFault>
    ensures { Gives (λ x. (x.0, x.1.now)) result (flagged_element get flag end rest.now) }
{
    match flag {
        0 => first_table_at(alloc, get, end, rest),
        2 => named_table_at(alloc, get, end, rest),
        _ => Err(ReadFault::Stopped(Stop::Foreign(Item::SegmentForm(flag)))),
    }
}

/// The element segment at the front, and the bytes after it (Core 5.5.12). `get` says whether its
/// offset may be a global.get. A flag that is neither 0 nor 2 is foreign.
#[tactic(auto, unfolding(crate::specs::PartReading::element_at))]
pub fn element_at(
    alloc: Global,
    get: bool,
    end: usize,
    bytes: &[u8],
) -> Result<(Element, &[u8]), ReadFault>
    ensures { Gives (λ x. (x.0, x.1.now)) result (element_at get end bytes.now) }
{
    let (flag, rest) = u32_at(end, bytes)?;
    flagged_element(alloc, get, flag, end, rest)
}

/// The bytes of memory 0 behind the flag.
fn first_memory_at(
    get: bool,
    end: usize,
    bytes: &[u8],
) -> Result<(Option<u32>, ConstExpr, &[u8], &[u8]), Stop>
    ensures { Reads (λ x. (record { memory = x.0; offset = x.1; bytes = x.2.now }, x.3.now)) result (first_memory_at get end bytes.now) }
{
    let (offset, rest) = init_at(get, end, bytes)?;
    let (content, rest) = bytes_at(end, rest)?;
    Ok((None, offset, content, rest))
}

/// The bytes of a memory that is named behind the flag.
fn named_memory_at(
    get: bool,
    end: usize,
    bytes: &[u8],
) -> Result<(Option<u32>, ConstExpr, &[u8], &[u8]), Stop>
    ensures { Reads (λ x. (record { memory = x.0; offset = x.1; bytes = x.2.now }, x.3.now)) result (named_memory_at get end bytes.now) }
{
    let (memory, rest) = u32_at(end, bytes)?;
    let (offset, rest) = init_at(get, end, rest)?;
    let (content, rest) = bytes_at(end, rest)?;
    Ok((Some(memory), offset, content, rest))
}

/// The data segment behind its flag.
fn flagged_data(
    get: bool,
    flag: u32,
    end: usize,
    rest: &[u8],
) -> Result<(Option<u32>, ConstExpr, &[u8], &[u8]), Stop>
    ensures { Reads (λ x. (record { memory = x.0; offset = x.1; bytes = x.2.now }, x.3.now)) result (flagged_data get flag end rest.now) }
{
    match flag {
        0 => first_memory_at(get, end, rest),
        2 => named_memory_at(get, end, rest),
        1 => Err(Stop::Foreign(Item::PassiveSegment)),
        _ => Err(Stop::Foreign(Item::SegmentForm(flag))),
    }
}

/// The data segment at the front: its memory (`None` where flag 0 leaves it out), its offset, its
/// bytes, which are lent, and the bytes after it (Core 5.5.14).
///
/// `get` says whether its offset may be a global.get. A flag that is neither 0 nor 2 is foreign.
#[tactic(auto, unfolding(crate::specs::PartReading::data_segment_at))]
pub fn lent_segment_at(
    get: bool,
    end: usize,
    bytes: &[u8],
) -> Result<(Option<u32>, ConstExpr, &[u8], &[u8]), Stop>
    ensures { Reads (λ x. (record { memory = x.0; offset = x.1; bytes = x.2.now }, x.3.now)) result (data_segment_at get end bytes.now) }
{
    let (flag, rest) = u32_at(end, bytes)?;
    flagged_data(get, flag, end, rest)
}

/// The data segment at the front, with its bytes kept, and the bytes after it (Core 5.5.14).
pub fn data_segment_at(
    alloc: Global,
    get: bool,
    end: usize,
    bytes: &[u8],
) -> Result<(DataSegment, &[u8]), ReadFault>
    ensures { Gives (λ x. (x.0, x.1.now)) result (data_segment_at get end bytes.now) }
{
    let (memory, offset, content, rest) = lent_segment_at(get, end, bytes)?;
    let bytes = Seq::from_slice(alloc, content)?;
    Ok((
        DataSegment {
            memory,
            offset,
            bytes,
        },
        rest,
    ))
}
