//! Copies of what a world owns.
ghost use Rattle.std.specs.Prelude.{◌≡◌, IfOk};

use std::alloc::Global;
use wasm_instr::Instr;
use wasm_types::FuncType;
use wl_base::{OutOfMemory, Seq};

/// The same type.
pub(crate) fn type_of(alloc: Global, kind: &FuncType) -> Result<FuncType, OutOfMemory>
    ensures { IfOk result (λ copy. copy ≡ kind.now) }
{
    let params = Seq::from_slice(alloc, kind.params.as_slice())?;
    let results = Seq::from_slice(alloc, kind.results.as_slice())?;
    Ok(FuncType { params, results })
}

/// The same instruction.
pub(crate) fn instr_of(alloc: Global, x: &Instr) -> Result<Instr, OutOfMemory>
    ensures { IfOk result (λ copy. copy ≡ x.now) }
{
    Ok(match x {
        Instr::Plain(opcode) => Instr::Plain(*opcode),
        Instr::Block { opcode, kind } => Instr::Block {
            opcode: *opcode,
            kind: *kind,
        },
        Instr::Branch { opcode, label } => Instr::Branch {
            opcode: *opcode,
            label: *label,
        },
        Instr::BranchTable { labels, last } => {
            let labels = Seq::from_slice(alloc, labels.as_slice())?;
            Instr::BranchTable {
                labels,
                last: *last,
            }
        }
        Instr::Call(f) => Instr::Call(*f),
        Instr::CallIndirect { kind, table } => Instr::CallIndirect {
            kind: *kind,
            table: *table,
        },
        Instr::SelectTyped(kinds) => Instr::SelectTyped(Seq::from_slice(alloc, kinds.as_slice())?),
        Instr::Local { opcode, local } => Instr::Local {
            opcode: *opcode,
            local: *local,
        },
        Instr::GlobalAt { opcode, global } => Instr::GlobalAt {
            opcode: *opcode,
            global: *global,
        },
        Instr::Access {
            opcode,
            align,
            offset,
        } => Instr::Access {
            opcode: *opcode,
            align: *align,
            offset: *offset,
        },
        Instr::MemorySize => Instr::MemorySize,
        Instr::MemoryGrow => Instr::MemoryGrow,
        Instr::I32Const(n) => Instr::I32Const(*n),
        Instr::I64Const(n) => Instr::I64Const(*n),
        Instr::F32Const(n) => Instr::F32Const(*n),
        Instr::F64Const(n) => Instr::F64Const(*n),
        Instr::Truncate(n) => Instr::Truncate(*n),
        Instr::MemoryCopy => Instr::MemoryCopy,
        Instr::MemoryFill => Instr::MemoryFill,
    })
}
