//! Immediates: what stands behind an opcode of each class.
//!
//! The calls that are named after instructions answer the instruction, the bytes from its last
//! immediate on, and the bytes after it; or the first fault.
ghost use Rattle.std.specs.Prelude.{◌≡◌};
ghost use Rattle.wasm_grammar.specs.Fault.{Reads, Gives};
ghost use Rattle.wasm_instr.specs.declared.instr.Instr.TheVariants as instrs;
ghost use Rattle.wasm_instr.specs.Reading.{index_kind_at, kind_of, block_kind_at, f32_at, f64_at, block_at, branch_at, branch_table_at, call_at, call_indirect_at, select_typed_at, local_at, global_at, access_at, zero_at, i32_const_at, i64_const_at, f32_const_at, f64_const_at, memory_copy_at, numbered, numbered_at};

use crate::instr::{BlockKind, Instr};
use std::alloc::Global;
use wasm_grammar::{
    ReadFault, Stop, byte_at, place, s32_at, s33_at, s64_at, tag_at, u32_at, vector_at,
};
use wasm_types::val_type_of;
use wl_base::Item;

/// What a reader of immediates finds.
type Found<'a> = Result<(Instr, &'a [u8], &'a [u8]), Stop>;

/// The type of a block that is an index: an s33 that isn't negative (Core 5.4.1). A negative one
/// is broken at its first byte.
#[tactic(auto, unfolding(crate::specs::Reading::index_kind_at))]
fn index_kind_at(end: usize, bytes: &[u8]) -> Result<(BlockKind, &[u8]), Stop>
    ensures { Reads (λ x. (x.0, x.1.now)) result (index_kind_at end bytes.now) }
{
    let (n, rest) = s33_at(end, bytes)?;
    match u32::try_from(n) {
        Ok(n) => Ok((BlockKind::Index(n), rest)),
        Err(_) => Err(Stop::Broken(place(end, bytes))),
    }
}

/// The type of a block whose first byte this is. A byte from 40 to 7F is a negative number in
/// itself, and so no index: it is the empty type, a value type, foreign or broken.
fn kind_of<'a>(
    byte: u8,
    end: usize,
    bytes: &'a [u8],
    rest: &'a [u8],
) -> Result<(BlockKind, &'a [u8]), Stop>
    ensures { Reads (λ x. (x.0, x.1.now)) result (kind_of byte end bytes.now rest.now) }
{
    match byte {
        0x40 => Ok((BlockKind::Empty, rest)),
        0x41..=0x7f => {
            let kind = val_type_of(place(end, bytes), byte)?;
            Ok((BlockKind::Value(kind), rest))
        }
        _ => index_kind_at(end, bytes),
    }
}

/// The type of a block (Core 5.4.1).
#[inline]
#[tactic(auto, unfolding(crate::specs::Reading::block_kind_at))]
pub fn block_kind_at(end: usize, bytes: &[u8]) -> Result<(BlockKind, &[u8]), Stop>
    ensures { Reads (λ x. (x.0, x.1.now)) result (block_kind_at end bytes.now) }
{
    let (byte, rest) = byte_at(end, bytes)?;
    kind_of(byte, end, bytes, rest)
}

/// The bits of an f32: four bytes, the lowest first (Core 5.2.3). They are broken at the end, where
/// they run out.
#[inline]
#[tactic(auto, unfolding(crate::specs::Reading::f32_at))]
pub fn f32_at(end: usize, bytes: &[u8]) -> Result<(u32, &[u8]), Stop>
    ensures { Reads (λ x. (x.0, x.1.now)) result (f32_at end bytes.now) }
{
    if 4 <= bytes.len() {
        let pattern = [bytes[0], bytes[1], bytes[2], bytes[3]];
        Ok((u32::from_le_bytes(pattern), &bytes[4..]))
    } else {
        Err(Stop::Broken(end))
    }
}

/// The bits of an f64: eight bytes, the lowest first (Core 5.2.3). They are broken at the end,
/// where they run out.
#[inline]
#[tactic(auto, unfolding(crate::specs::Reading::f64_at))]
pub fn f64_at(end: usize, bytes: &[u8]) -> Result<(u64, &[u8]), Stop>
    ensures { Reads (λ x. (x.0, x.1.now)) result (f64_at end bytes.now) }
{
    if 8 <= bytes.len() {
        let pattern = [
            bytes[0], bytes[1], bytes[2], bytes[3], bytes[4], bytes[5], bytes[6], bytes[7],
        ];
        Ok((u64::from_le_bytes(pattern), &bytes[8..]))
    } else {
        Err(Stop::Broken(end))
    }
}

/// `block`, `loop` or `if`, behind its opcode (Core 5.4.1).
pub fn block_at(opcode: u8, end: usize, rest: &[u8]) -> Found<'_>
    ensures { Reads (λ x. (x.0, x.1.now, x.2.now)) result (block_at opcode end rest.now) }
{
    let (kind, after) = block_kind_at(end, rest)?;
    Ok((Instr::Block { opcode, kind }, rest, after))
}

/// `br` or `br_if`, behind its opcode (Core 5.4.1).
pub fn branch_at(opcode: u8, end: usize, rest: &[u8]) -> Found<'_>
    ensures { Reads (λ x. (x.0, x.1.now, x.2.now)) result (branch_at opcode end rest.now) }
{
    let (label, after) = u32_at(end, rest)?;
    Ok((Instr::Branch { opcode, label }, rest, after))
}

/// `br_table`, behind its opcode (Core 5.4.1).
pub fn branch_table_at(
    alloc: Global,
    end: usize,
    rest: &[u8],
) -> Result<(Instr, &[u8], &[u8]), ReadFault>
    ensures { Gives (λ x. (x.0, x.1.now, x.2.now)) result (branch_table_at end rest.now) }
{
    let (labels, mid) = vector_at(alloc, end, rest)?;
    let (last, after) = u32_at(end, mid)?;
    Ok((Instr::BranchTable { labels, last }, mid, after))
}

/// `call`, behind its opcode (Core 5.4.1).
pub fn call_at(end: usize, rest: &[u8]) -> Found<'_>
    ensures { Reads (λ x. (x.0, x.1.now, x.2.now)) result (call_at end rest.now) }
{
    let (function, after) = u32_at(end, rest)?;
    Ok((Instr::Call(function), rest, after))
}

/// `call_indirect`, behind its opcode (Core 5.4.1).
pub fn call_indirect_at(end: usize, rest: &[u8]) -> Found<'_>
    ensures { Reads (λ x. (x.0, x.1.now, x.2.now)) result (call_indirect_at end rest.now) }
{
    let (kind, mid) = u32_at(end, rest)?;
    let (table, after) = u32_at(end, mid)?;
    Ok((Instr::CallIndirect { kind, table }, mid, after))
}

/// `select` with types, behind its opcode (Core 5.4.3).
pub fn select_typed_at(
    alloc: Global,
    end: usize,
    rest: &[u8],
) -> Result<(Instr, &[u8], &[u8]), ReadFault>
    ensures { Gives (λ x. (x.0, x.1.now, x.2.now)) result (select_typed_at end rest.now) }
{
    let (kinds, after) = vector_at(alloc, end, rest)?;
    Ok((Instr::SelectTyped(kinds), rest, after))
}

/// `local.get`, `local.set` or `local.tee`, behind its opcode (Core 5.4.4).
pub fn local_at(opcode: u8, end: usize, rest: &[u8]) -> Found<'_>
    ensures { Reads (λ x. (x.0, x.1.now, x.2.now)) result (local_at opcode end rest.now) }
{
    let (local, after) = u32_at(end, rest)?;
    Ok((Instr::Local { opcode, local }, rest, after))
}

/// `global.get` or `global.set`, behind its opcode (Core 5.4.4).
pub fn global_at(opcode: u8, end: usize, rest: &[u8]) -> Found<'_>
    ensures { Reads (λ x. (x.0, x.1.now, x.2.now)) result (global_at opcode end rest.now) }
{
    let (global, after) = u32_at(end, rest)?;
    Ok((Instr::GlobalAt { opcode, global }, rest, after))
}

/// A load or a store, behind its opcode (Core 5.4.6).
pub fn access_at(opcode: u8, end: usize, rest: &[u8]) -> Found<'_>
    ensures { Reads (λ x. (x.0, x.1.now, x.2.now)) result (access_at opcode end rest.now) }
{
    let (align, mid) = u32_at(end, rest)?;
    let (offset, after) = u32_at(end, mid)?;
    Ok((
        Instr::Access {
            opcode,
            align,
            offset,
        },
        mid,
        after,
    ))
}

/// `memory.size`, behind its opcode (Core 5.4.6).
pub fn memory_size_at(end: usize, rest: &[u8]) -> Found<'_>
    ensures { Reads (λ x. (x.0, x.1.now, x.2.now)) result (zero_at instrs.MemorySize end rest.now) }
{
    let after = tag_at(0, end, rest)?;
    Ok((Instr::MemorySize, rest, after))
}

/// `memory.grow`, behind its opcode (Core 5.4.6).
pub fn memory_grow_at(end: usize, rest: &[u8]) -> Found<'_>
    ensures { Reads (λ x. (x.0, x.1.now, x.2.now)) result (zero_at instrs.MemoryGrow end rest.now) }
{
    let after = tag_at(0, end, rest)?;
    Ok((Instr::MemoryGrow, rest, after))
}

/// `memory.fill`, behind its number (Core 5.4.6).
fn memory_fill_at(end: usize, rest: &[u8]) -> Found<'_>
    ensures { Reads (λ x. (x.0, x.1.now, x.2.now)) result (zero_at instrs.MemoryFill end rest.now) }
{
    let after = tag_at(0, end, rest)?;
    Ok((Instr::MemoryFill, rest, after))
}

/// `i32.const`, behind its opcode (Core 5.4.7).
pub fn i32_const_at(end: usize, rest: &[u8]) -> Found<'_>
    ensures { Reads (λ x. (x.0, x.1.now, x.2.now)) result (i32_const_at end rest.now) }
{
    let (n, after) = s32_at(end, rest)?;
    Ok((Instr::I32Const(n), rest, after))
}

/// `i64.const`, behind its opcode (Core 5.4.7).
pub fn i64_const_at(end: usize, rest: &[u8]) -> Found<'_>
    ensures { Reads (λ x. (x.0, x.1.now, x.2.now)) result (i64_const_at end rest.now) }
{
    let (n, after) = s64_at(end, rest)?;
    Ok((Instr::I64Const(n), rest, after))
}

/// `f32.const`, behind its opcode (Core 5.4.7).
pub fn f32_const_at(end: usize, rest: &[u8]) -> Found<'_>
    ensures { Reads (λ x. (x.0, x.1.now, x.2.now)) result (f32_const_at end rest.now) }
{
    let (n, after) = f32_at(end, rest)?;
    Ok((Instr::F32Const(n), rest, after))
}

/// `f64.const`, behind its opcode (Core 5.4.7).
pub fn f64_const_at(end: usize, rest: &[u8]) -> Found<'_>
    ensures { Reads (λ x. (x.0, x.1.now, x.2.now)) result (f64_const_at end rest.now) }
{
    let (n, after) = f64_at(end, rest)?;
    Ok((Instr::F64Const(n), rest, after))
}

/// `memory.copy`, behind its number (Core 5.4.6).
fn memory_copy_at(end: usize, rest: &[u8]) -> Found<'_>
    ensures { Reads (λ x. (x.0, x.1.now, x.2.now)) result (memory_copy_at end rest.now) }
{
    let mid = tag_at(0, end, rest)?;
    let after = tag_at(0, end, mid)?;
    Ok((Instr::MemoryCopy, mid, after))
}

/// The instruction of this number after FC (Core 5.4.6, 5.4.7). Another number is foreign.
fn numbered(n: u32, end: usize, rest: &[u8]) -> Found<'_>
    ensures { Reads (λ x. (x.0, x.1.now, x.2.now)) result (numbered n end rest.now) }
{
    match n {
        0..=7 => Ok((Instr::Truncate(n), rest, rest)),
        10 => memory_copy_at(end, rest),
        11 => memory_fill_at(end, rest),
        _ => Err(Stop::Foreign(Item::Opcode { byte: 0xfc, sub: n })),
    }
}

/// An instruction whose opcode is FC and a number, behind FC.
pub fn numbered_at(end: usize, rest: &[u8]) -> Found<'_>
    ensures { Reads (λ x. (x.0, x.1.now, x.2.now)) result (numbered_at end rest.now) }
{
    let (n, rest) = u32_at(end, rest)?;
    numbered(n, end, rest)
}
