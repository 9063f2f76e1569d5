//! Instructions with the module's answers in the place of their indexes.
ghost use Rattle.std.specs.Prelude.{◌≡◌, map, slice_get, IfOk};
ghost use Rattle.wasm_instr.specs.Placeless.{instrs_of};
ghost use Rattle.run_rules.specs.Ops.{block_type, calling as calling_of, op_of as op_of_instr};
ghost use Rattle.run_modules.specs.Cells.{cell_seen};

use crate::cells::cell_at;
use crate::clones::{instr_of, type_of};
use crate::opcodes::{GLOBAL_GET, GLOBAL_SET};
use run_rules::Op;
use std::alloc::Global;
use wasm_instr::{BlockKind, Instr, Placed};
use wasm_types::FuncType;
use wl_base::{OutOfMemory, Seq};

/// The type that a block is written with.
fn block_type_of(
    alloc: Global,
    types: &[FuncType],
    kind: BlockKind,
) -> Result<Option<FuncType>, OutOfMemory>
    ensures { IfOk result (λ t. t ≡ block_type types.now kind) }
{
    match kind {
        BlockKind::Empty => Ok(Some(FuncType {
            params: Seq::new(alloc),
            results: Seq::new(alloc),
        })),
        BlockKind::Value(t) => {
            let mut results = Seq::new(alloc);
            results.push(t)?;
            Ok(Some(FuncType {
                params: Seq::new(alloc),
                results,
            }))
        }
        BlockKind::Index(n) => match types.get(n as usize) {
            Some(t) => Ok(Some(type_of(alloc, t)?)),
            None => Ok(None),
        },
    }
}

/// `call_indirect` with the type of this index.
fn calling(alloc: Global, types: &[FuncType], kind: u32) -> Result<Op, OutOfMemory>
    ensures { IfOk result (λ op. op ≡ calling_of (slice_get types.now kind)) }
{
    match types.get(kind as usize) {
        Some(t) => Ok(Op::CallThrough(type_of(alloc, t)?)),
        None => Ok(Op::Absent),
    }
}

/// An instruction of a module with these types, where imported globals are these cells.
fn op_of(alloc: Global, types: &[FuncType], cells: &[u32], x: &Instr) -> Result<Op, OutOfMemory>
    ensures { IfOk result (λ op. op ≡ op_of_instr types.now (cell_seen cells.now) x.now) }
{
    match x {
        Instr::Block { opcode, kind } => match block_type_of(alloc, types, *kind)? {
            Some(kind) => Ok(Op::OpenBlock {
                opcode: *opcode,
                kind,
            }),
            None => Ok(Op::Absent),
        },
        Instr::Call(f) => Ok(Op::CallTo(*f)),
        Instr::CallIndirect { kind, table } => {
            if *table != 0 {
                return Ok(Op::Absent);
            }
            calling(alloc, types, *kind)
        }
        Instr::GlobalAt { opcode, global } => {
            let cell = cell_at(cells, *global);
            match *opcode {
                GLOBAL_GET => Ok(Op::ReadCell(cell)),
                GLOBAL_SET => Ok(Op::WriteCell(cell)),
                _ => Ok(Op::Absent),
            }
        }
        _ => Ok(Op::Own(instr_of(alloc, x)?)),
    }
}

/// The instructions of a body.
pub(crate) fn ops_of(
    alloc: Global,
    types: &[FuncType],
    cells: &[u32],
    code: &[Placed],
) -> Result<Seq<Op>, OutOfMemory>
    ensures { IfOk result (λ ops.
        ops ≡ map (op_of_instr types.now (cell_seen cells.now)) (instrs_of code.now)) }
{
    let mut ops = Seq::new(alloc);
    for placed in code {
        ops.push(op_of(alloc, types, cells, &placed.instr)?)?;
    }
    Ok(ops)
}
