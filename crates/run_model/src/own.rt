//! What an instruction does that asks nothing of its world.
ghost use Rattle.std.specs.Prelude.{◌≡◌, ℕ, ◌+◌, ◌<◌, ◌^◌, IfOk};
ghost use Rattle.std.specs.Int.{cast_unsigned, w32, w64};
ghost use Rattle.run_rules.specs.Own.{own as own_of, plain as plain_of};
ghost use Rattle.run_model.specs.Views.{Turns, inner_of};

use crate::access::access;
use crate::branches::{branch, branch_if, branch_table, close, leave, part};
use crate::bulk::{copy, fill};
use crate::grow::{grow, size};
use crate::opcodes::{
    BR, DROP, ELSE, END, F32_CONST, F64_CONST, NOP, NUMBERED, RETURN, SELECT, SELECT_TYPED,
    UNREACHABLE,
};
use crate::state::{Active, After, Stop};
use crate::values::{discard, local, number, select};
use run_rules::{Session, TrapKind, Value};
use wasm_instr::Instr;
use wl_base::OutOfMemory;

/// An opcode without immediates.
fn plain(inner: &mut Active, op: u8) -> Result<After, OutOfMemory>
    requires { inner.old.frame.place + 1 < 2 ^ 64 }
    ensures { IfOk result (λ after.
        Turns (plain_of (inner_of inner.old) op) after inner.old inner.new) }
{
    match op {
        UNREACHABLE => Ok(After::Traps(TrapKind::Unreachable)),
        NOP => {
            inner.frame.place += 1;
            Ok(After::Goes)
        }
        ELSE => Ok(part(inner)),
        END => close(inner),
        RETURN => Ok(leave(&inner.frame)),
        DROP => Ok(discard(inner, op)),
        SELECT => select(inner, op),
        _ => number(inner, op),
    }
}

/// One instruction that asks nothing, where the memory may have so many pages.
#[tactic(auto, unfolding(run_rules::specs::Own::own))]
pub(crate) fn own(
    memory: Option<u32>,
    session: &Session,
    inner: &mut Active,
    x: &Instr,
) -> Result<After, OutOfMemory>
    requires { inner.old.frame.place + 1 < 2 ^ 64 }
    ensures { IfOk result (λ after.
        Turns (own_of memory session.now (inner_of inner.old) x.now) after inner.old inner.new) }
{
    match x {
        Instr::Plain(op) => plain(inner, *op),
        Instr::Branch { opcode, label } => {
            if *opcode == BR {
                branch(inner, *label as usize)
            } else {
                branch_if(inner, *label as usize)
            }
        }
        Instr::BranchTable { labels, last } => branch_table(inner, labels.as_slice(), *last),
        Instr::SelectTyped(_) => select(inner, SELECT_TYPED),
        Instr::Local { opcode, local: k } => local(inner, *opcode, *k as usize),
        Instr::Access {
            opcode,
            align: _,
            offset,
        } => access(inner, memory, *opcode, *offset),
        Instr::MemorySize => size(inner, memory),
        Instr::MemoryGrow => grow(inner, memory, session),
        Instr::I32Const(n) => {
            inner.frame.layered.push(Value::I32(n.cast_unsigned()))?;
            inner.frame.place += 1;
            Ok(After::Goes)
        }
        Instr::I64Const(n) => {
            inner.frame.layered.push(Value::I64(n.cast_unsigned()))?;
            inner.frame.place += 1;
            Ok(After::Goes)
        }
        Instr::F32Const(_) => Ok(After::Ends(Stop::Carried(F32_CONST, 0))),
        Instr::F64Const(_) => Ok(After::Ends(Stop::Carried(F64_CONST, 0))),
        Instr::Truncate(n) => Ok(After::Ends(Stop::Carried(NUMBERED, *n))),
        Instr::MemoryCopy => Ok(copy(inner, memory)),
        Instr::MemoryFill => Ok(fill(inner, memory)),
        Instr::Block { .. }
        | Instr::Call(_)
        | Instr::CallIndirect { .. }
        | Instr::GlobalAt { .. } => { Ok(After::Ends(Stop::Stuck)) }
    }
}
