//! Instructions.
ghost use Rattle.std.specs.Prelude.{◌≡◌};
ghost use Rattle.wasm_grammar.specs.Fault.{Gives};
ghost use Rattle.wasm_instr.specs.Reading.{immediates_at, instr_at};

use crate::class::{Class, class_of};
use crate::immediates::{
    access_at, block_at, branch_at, branch_table_at, call_at, call_indirect_at, f32_const_at,
    f64_const_at, global_at, i32_const_at, i64_const_at, local_at, memory_grow_at, memory_size_at,
    numbered_at, select_typed_at,
};
use std::alloc::Global;
use wasm_grammar::{ReadFault, Stop, byte_at};
use wasm_types::ValType;
use wl_base::{Item, Seq};

/// The type of a block: what it takes and gives (Core 5.4.1).
#[derive(Clone, Copy, Debug, PartialEq, Eq)]
pub enum BlockKind {
    /// It takes and gives nothing.
    Empty,
    /// It takes nothing and gives one value.
    Value(ValType),
    /// It takes and gives what the function type of this index does.
    Index(u32),
}

/// An instruction, by the form of its immediates (Core 5.4).
#[derive(Debug, PartialEq, Eq, Drop)]
pub enum Instr {
    /// One without immediates, by its opcode. `end` and `else` are among them.
    Plain(u8),
    /// `block`, `loop` or `if`.
    Block {
        /// 02, 03 or 04.
        opcode: u8,
        /// The block's type.
        kind: BlockKind,
    },
    /// `br` or `br_if`.
    Branch {
        /// 0C or 0D.
        opcode: u8,
        /// How many blocks out it goes.
        label: u32,
    },
    /// `br_table`.
    BranchTable {
        /// The labels that the operand chooses from.
        labels: Seq<u32>,
        /// The label for every other operand.
        last: u32,
    },
    /// `call`, with the index of the function.
    Call(u32),
    /// `call_indirect`.
    CallIndirect {
        /// The index of the function's type.
        kind: u32,
        /// The index of the table.
        table: u32,
    },
    /// `select` with the types of its operands.
    SelectTyped(Seq<ValType>),
    /// `local.get`, `local.set` or `local.tee`.
    Local {
        /// 20, 21 or 22.
        opcode: u8,
        /// The index of the local.
        local: u32,
    },
    /// `global.get` or `global.set`.
    GlobalAt {
        /// 23 or 24.
        opcode: u8,
        /// The index of the global.
        global: u32,
    },
    /// A load or a store.
    Access {
        /// From 28 to 3E.
        opcode: u8,
        /// The exponent of the alignment, as a power of two.
        align: u32,
        /// What is added to the address, in bytes.
        offset: u32,
    },
    /// `memory.size`.
    MemorySize,
    /// `memory.grow`.
    MemoryGrow,
    /// `i32.const`.
    I32Const(i32),
    /// `i64.const`.
    I64Const(i64),
    /// `f32.const`, with the pattern of its bits.
    F32Const(u32),
    /// `f64.const`, with the pattern of its bits.
    F64Const(u64),
    /// A conversion that saturates, by the number after FC: from 0 to 7.
    Truncate(u32),
    /// `memory.copy`.
    MemoryCopy,
    /// `memory.fill`.
    MemoryFill,
}

/// The instruction behind its opcode, the bytes from its last immediate on, and the bytes after it.
fn immediates_at(
    class: Class,
    opcode: u8,
    alloc: Global,
    end: usize,
    rest: &[u8],
) -> Result<(Instr, &[u8], &[u8]), ReadFault>
    ensures { Gives (λ x. (x.0, x.1.now, x.2.now)) result (immediates_at class opcode end rest.now) }
{
    match class {
        Class::Plain => Ok((Instr::Plain(opcode), rest, rest)),
        Class::Block => Ok(block_at(opcode, end, rest)?),
        Class::Branch => Ok(branch_at(opcode, end, rest)?),
        Class::BranchTable => branch_table_at(alloc, end, rest),
        Class::Call => Ok(call_at(end, rest)?),
        Class::CallIndirect => Ok(call_indirect_at(end, rest)?),
        Class::SelectTyped => select_typed_at(alloc, end, rest),
        Class::Local => Ok(local_at(opcode, end, rest)?),
        Class::GlobalAt => Ok(global_at(opcode, end, rest)?),
        Class::Access => Ok(access_at(opcode, end, rest)?),
        Class::MemorySize => Ok(memory_size_at(end, rest)?),
        Class::MemoryGrow => Ok(memory_grow_at(end, rest)?),
        Class::I32Const => Ok(i32_const_at(end, rest)?),
        Class::I64Const => Ok(i64_const_at(end, rest)?),
        Class::F32Const => Ok(f32_const_at(end, rest)?),
        Class::F64Const => Ok(f64_const_at(end, rest)?),
        Class::Numbered => Ok(numbered_at(end, rest)?),
        Class::Foreign => Err(ReadFault::Stopped(Stop::Foreign(Item::Opcode {
            byte: opcode,
            sub: 0,
        }))),
    }
}

/// The instruction at the front, the bytes from its last immediate on, and the bytes after it
/// (Core 5.4). Where it has no immediate, the second are the third.
///
/// An opcode that isn't linked is foreign, and what follows it isn't read.
#[tactic(auto, unfolding(crate::specs::Reading::instr_at))]
pub fn instr_at(alloc: Global, end: usize, bytes: &[u8]) -> Result<(Instr, &[u8], &[u8]), ReadFault>
    ensures { Gives (λ x. (x.0, x.1.now, x.2.now)) result (instr_at end bytes.now) }
{
    let (opcode, rest) = byte_at(end, bytes)?;
    immediates_at(class_of(opcode), opcode, alloc, end, rest)
}
