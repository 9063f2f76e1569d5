//! Skimming: reading the outline of an instruction, or past the locals of a body, with nothing kept
//! and no memory taken.
//!
//! A scanner of many bodies runs this for each instruction, so the readers are small and inlined.
//! Those that are named after instructions answer as `skim_at` does.
ghost use Rattle.std.specs.Prelude.{◌≡◌};
ghost use Rattle.wasm_grammar.specs.Fault.{Reads};
ghost use Rattle.wasm_grammar.specs.Reading.{u32_at, vector_at, many_at};
ghost use Rattle.wasm_types.specs.Types.{val_type_at};
ghost use Rattle.wasm_instr.specs.declared.instr.Instr.TheVariants as instrs;
ghost use Rattle.wasm_instr.specs.Reading.{block_at, branch_at, branch_table_at, call_at, call_indirect_at, select_typed_at, local_at, global_at, access_at, zero_at, i32_const_at, i64_const_at, f32_const_at, f64_const_at, memory_copy_at, numbered, numbered_at, immediates_at};
ghost use Rattle.wasm_instr.specs.Bodies.{runs_at};
ghost use Rattle.wasm_instr.specs.Skimming.{rest_of, outlined, skim_at, skip_locals_at};

use crate::body::run_at;
use crate::class::{Class, class_of};
use crate::immediates::{block_kind_at, f32_at, f64_at};
use crate::outline::{Outline, plain_outline};
use wasm_grammar::{Stop, byte_at, s32_at, s64_at, tag_at, u32_at};
use wasm_types::plain_val_type_at;
use wl_base::Item;

/// What skimming finds: the outline, the bytes from the last immediate on, and the bytes after the
/// instruction; or the first fault.
type Skimmed<'a> = Result<(Outline, &'a [u8], &'a [u8]), Stop>;

/// The bytes after so many numbers.
fn skip_numbers_at(count: u32, end: usize, bytes: &[u8]) -> Result<&[u8], Stop>
    ensures { Reads (λ x. x.now) result (rest_of (many_at u32_at count end bytes.now)) }
{
    let mut rest = bytes;
    for _ in 0..count {
        let (_, after) = u32_at(end, rest)?;
        rest = after;
    }
    Ok(rest)
}

/// The bytes after so many value types.
fn skip_types_at(count: u32, end: usize, bytes: &[u8]) -> Result<&[u8], Stop>
    ensures { Reads (λ x. x.now) result (rest_of (many_at val_type_at count end bytes.now)) }
{
    let mut rest = bytes;
    for _ in 0..count {
        let (_, after) = plain_val_type_at(end, rest)?;
        rest = after;
    }
    Ok(rest)
}

/// The bytes after so many runs of locals.
fn skip_runs_at(count: u32, end: usize, bytes: &[u8]) -> Result<&[u8], Stop>
    ensures { Reads (λ x. x.now) result (rest_of (runs_at count 0 end bytes.now)) }
{
    let mut rest = bytes;
    let mut before: u32 = 0;
    for _ in 0..count {
        let (run, after) = run_at(before, end, rest)?;
        before += run.count;
        rest = after;
    }
    Ok(rest)
}

/// The bytes behind the locals at the front of a body (Core 5.5.13). It takes no memory.
#[tactic(auto, unfolding(crate::specs::Skimming::skip_locals_at, crate::specs::Bodies::locals_at))]
pub fn skip_locals_at(end: usize, bytes: &[u8]) -> Result<&[u8], Stop>
    ensures { Reads (λ x. x.now) result (skip_locals_at end bytes.now) }
{
    let (count, rest) = u32_at(end, bytes)?;
    skip_runs_at(count, end, rest)
}

/// The bytes after a vector of labels.
#[tactic(auto, unfolding(wasm_grammar::specs::Reading::vector_at))]
fn skip_labels_at(end: usize, bytes: &[u8]) -> Result<&[u8], Stop>
    ensures { Reads (λ x. x.now) result (rest_of (vector_at u32_at end bytes.now)) }
{
    let (count, rest) = u32_at(end, bytes)?;
    skip_numbers_at(count, end, rest)
}

/// `block`, `loop` or `if`, behind its opcode.
#[inline(always)]
fn skim_block_at(opcode: u8, end: usize, rest: &[u8]) -> Skimmed<'_>
    ensures { Reads (λ x. (x.0, x.1.now, x.2.now)) result (outlined (block_at opcode end rest.now)) }
{
    let (kind, after) = block_kind_at(end, rest)?;
    let outline = Outline::Block {
        may_else: opcode == 0x04,
        index: kind.is_index(),
    };
    Ok((outline, rest, after))
}

/// `br` or `br_if`, behind its opcode.
#[inline(always)]
fn skim_branch_at(opcode: u8, end: usize, rest: &[u8]) -> Skimmed<'_>
    ensures { Reads (λ x. (x.0, x.1.now, x.2.now)) result (outlined (branch_at opcode end rest.now)) }
{
    let (_, after) = u32_at(end, rest)?;
    Ok((Outline::Other, rest, after))
}

/// `br_table`, behind its opcode.
#[inline(always)]
fn skim_branch_table_at(end: usize, rest: &[u8]) -> Skimmed<'_>
    ensures { Reads (λ x. (x.0, x.1.now, x.2.now)) result (outlined (branch_table_at end rest.now)) }
{
    let mid = skip_labels_at(end, rest)?;
    let (_, after) = u32_at(end, mid)?;
    Ok((Outline::Other, mid, after))
}

/// `call`, behind its opcode.
#[inline(always)]
fn skim_call_at(end: usize, rest: &[u8]) -> Skimmed<'_>
    ensures { Reads (λ x. (x.0, x.1.now, x.2.now)) result (outlined (call_at end rest.now)) }
{
    let (_, after) = u32_at(end, rest)?;
    Ok((Outline::Call, rest, after))
}

/// `call_indirect`, behind its opcode.
#[inline(always)]
fn skim_call_indirect_at(end: usize, rest: &[u8]) -> Skimmed<'_>
    ensures { Reads (λ x. (x.0, x.1.now, x.2.now)) result (outlined (call_indirect_at end rest.now)) }
{
    let (_, mid) = u32_at(end, rest)?;
    let (table, after) = u32_at(end, mid)?;
    Ok((Outline::CallIndirect { table }, mid, after))
}

/// `select` with types, behind its opcode.
#[tactic(auto, unfolding(wasm_grammar::specs::Reading::vector_at))]
fn skim_select_typed_at(end: usize, rest: &[u8]) -> Skimmed<'_>
    ensures { Reads (λ x. (x.0, x.1.now, x.2.now)) result (outlined (select_typed_at end rest.now)) }
{
    let (count, kinds) = u32_at(end, rest)?;
    let after = skip_types_at(count, end, kinds)?;
    Ok((Outline::Other, rest, after))
}

/// `local.get`, `local.set` or `local.tee`, behind its opcode.
#[inline(always)]
fn skim_local_at(opcode: u8, end: usize, rest: &[u8]) -> Skimmed<'_>
    ensures { Reads (λ x. (x.0, x.1.now, x.2.now)) result (outlined (local_at opcode end rest.now)) }
{
    let (_, after) = u32_at(end, rest)?;
    Ok((Outline::Other, rest, after))
}

/// `global.get` or `global.set`, behind its opcode.
#[inline(always)]
fn skim_global_at(opcode: u8, end: usize, rest: &[u8]) -> Skimmed<'_>
    ensures { Reads (λ x. (x.0, x.1.now, x.2.now)) result (outlined (global_at opcode end rest.now)) }
{
    let (_, after) = u32_at(end, rest)?;
    Ok((Outline::Global, rest, after))
}

/// A load or a store, behind its opcode.
#[inline(always)]
fn skim_access_at(opcode: u8, end: usize, rest: &[u8]) -> Skimmed<'_>
    ensures { Reads (λ x. (x.0, x.1.now, x.2.now)) result (outlined (access_at opcode end rest.now)) }
{
    let (_, mid) = u32_at(end, rest)?;
    let (_, after) = u32_at(end, mid)?;
    Ok((Outline::Access, mid, after))
}

/// `memory.size`, behind its opcode.
#[inline(always)]
fn skim_memory_size_at(end: usize, rest: &[u8]) -> Skimmed<'_>
    ensures { Reads (λ x. (x.0, x.1.now, x.2.now)) result (outlined (zero_at instrs.MemorySize end rest.now)) }
{
    let after = tag_at(0, end, rest)?;
    Ok((Outline::Other, rest, after))
}

/// `memory.grow`, behind its opcode.
#[inline(always)]
fn skim_memory_grow_at(end: usize, rest: &[u8]) -> Skimmed<'_>
    ensures { Reads (λ x. (x.0, x.1.now, x.2.now)) result (outlined (zero_at instrs.MemoryGrow end rest.now)) }
{
    let after = tag_at(0, end, rest)?;
    Ok((Outline::Other, rest, after))
}

/// `memory.fill`, behind its number.
#[inline(always)]
fn skim_memory_fill_at(end: usize, rest: &[u8]) -> Skimmed<'_>
    ensures { Reads (λ x. (x.0, x.1.now, x.2.now)) result (outlined (zero_at instrs.MemoryFill end rest.now)) }
{
    let after = tag_at(0, end, rest)?;
    Ok((Outline::Other, rest, after))
}

/// `memory.copy`, behind its number.
#[inline(always)]
fn skim_memory_copy_at(end: usize, rest: &[u8]) -> Skimmed<'_>
    ensures { Reads (λ x. (x.0, x.1.now, x.2.now)) result (outlined (memory_copy_at end rest.now)) }
{
    let mid = tag_at(0, end, rest)?;
    let after = tag_at(0, end, mid)?;
    Ok((Outline::Other, mid, after))
}

/// `i32.const`, behind its opcode.
#[inline(always)]
fn skim_i32_const_at(end: usize, rest: &[u8]) -> Skimmed<'_>
    ensures { Reads (λ x. (x.0, x.1.now, x.2.now)) result (outlined (i32_const_at end rest.now)) }
{
    let (_, after) = s32_at(end, rest)?;
    Ok((Outline::I32Const, rest, after))
}

/// `i64.const`, behind its opcode.
#[inline(always)]
fn skim_i64_const_at(end: usize, rest: &[u8]) -> Skimmed<'_>
    ensures { Reads (λ x. (x.0, x.1.now, x.2.now)) result (outlined (i64_const_at end rest.now)) }
{
    let (_, after) = s64_at(end, rest)?;
    Ok((Outline::Other, rest, after))
}

/// `f32.const`, behind its opcode.
#[inline(always)]
fn skim_f32_const_at(end: usize, rest: &[u8]) -> Skimmed<'_>
    ensures { Reads (λ x. (x.0, x.1.now, x.2.now)) result (outlined (f32_const_at end rest.now)) }
{
    let (_, after) = f32_at(end, rest)?;
    Ok((Outline::Other, rest, after))
}

/// `f64.const`, behind its opcode.
#[inline(always)]
fn skim_f64_const_at(end: usize, rest: &[u8]) -> Skimmed<'_>
    ensures { Reads (λ x. (x.0, x.1.now, x.2.now)) result (outlined (f64_const_at end rest.now)) }
{
    let (_, after) = f64_at(end, rest)?;
    Ok((Outline::Other, rest, after))
}

/// The instruction of this number after FC.
#[inline(always)]
fn skim_numbered(n: u32, end: usize, rest: &[u8]) -> Skimmed<'_>
    ensures { Reads (λ x. (x.0, x.1.now, x.2.now)) result (outlined (numbered n end rest.now)) }
{
    match n {
        0..=7 => Ok((Outline::Other, rest, rest)),
        10 => skim_memory_copy_at(end, rest),
        11 => skim_memory_fill_at(end, rest),
        _ => Err(Stop::Foreign(Item::Opcode { byte: 0xfc, sub: n })),
    }
}

/// An instruction whose opcode is FC and a number, behind FC.
#[inline(always)]
fn skim_numbered_at(end: usize, rest: &[u8]) -> Skimmed<'_>
    ensures { Reads (λ x. (x.0, x.1.now, x.2.now)) result (outlined (numbered_at end rest.now)) }
{
    let (n, rest) = u32_at(end, rest)?;
    skim_numbered(n, end, rest)
}

/// The instruction behind its opcode.
#[inline(always)]
fn skim_immediates_at(class: Class, opcode: u8, end: usize, rest: &[u8]) -> Skimmed<'_>
    ensures { Reads (λ x. (x.0, x.1.now, x.2.now)) result (outlined (immediates_at class opcode end rest.now)) }
{
    match class {
        Class::Plain => Ok((plain_outline(opcode), rest, rest)),
        Class::Block => skim_block_at(opcode, end, rest),
        Class::Branch => skim_branch_at(opcode, end, rest),
        Class::BranchTable => skim_branch_table_at(end, rest),
        Class::Call => skim_call_at(end, rest),
        Class::CallIndirect => skim_call_indirect_at(end, rest),
        Class::SelectTyped => skim_select_typed_at(end, rest),
        Class::Local => skim_local_at(opcode, end, rest),
        Class::GlobalAt => skim_global_at(opcode, end, rest),
        Class::Access => skim_access_at(opcode, end, rest),
        Class::MemorySize => skim_memory_size_at(end, rest),
        Class::MemoryGrow => skim_memory_grow_at(end, rest),
        Class::I32Const => skim_i32_const_at(end, rest),
        Class::I64Const => skim_i64_const_at(end, rest),
        Class::F32Const => skim_f32_const_at(end, rest),
        Class::F64Const => skim_f64_const_at(end, rest),
        Class::Numbered => skim_numbered_at(end, rest),
        Class::Foreign => Err(Stop::Foreign(Item::Opcode {
            byte: opcode,
            sub: 0,
        })),
    }
}

/// The outline of the instruction at the front, the bytes from its last immediate on, and the bytes
/// after it: what [`crate::instr_at`] gives, with no memory taken.
#[inline(always)]
#[tactic(auto, unfolding(crate::specs::Skimming::skim_at, crate::specs::Reading::instr_at))]
pub fn skim_at(end: usize, bytes: &[u8]) -> Result<(Outline, &[u8], &[u8]), Stop>
    ensures { Reads (λ x. (x.0, x.1.now, x.2.now)) result (skim_at end bytes.now) }
{
    let (opcode, rest) = byte_at(end, bytes)?;
    skim_immediates_at(class_of(opcode), opcode, end, rest)
}
