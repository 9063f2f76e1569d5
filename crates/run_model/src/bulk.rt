//! Copies and fills of memory (Core 4.4.7).
ghost use Rattle.std.specs.Prelude.{◌≡◌, ℕ, ◌+◌, ◌%◌, ◌<◌, ◌≤◌, ◌^◌, length, take, drop, replicate};
ghost use Rattle.run_rules.specs.Memory.{written};
ghost use Rattle.run_rules.specs.Own.{with_memory, copy as copy_of, fill as fill_of};
ghost use Rattle.run_model.specs.Views.{Turns, inner_of};

use crate::state::{Active, After, Stop};
use run_rules::{TrapKind, Value};

/// Moves bytes within a memory; the parts may overlap.
fn move_bytes(memory: &mut [u8], from: usize, to: usize, count: usize)
    requires from { from + count ≤ length memory.old }
    requires to { to + count ≤ length memory.old }
    ensures { memory.new ≡ written to (take count (drop from memory.old)) memory.old }
{
    memory.copy_within(from..from + count, to);
}

/// Sets bytes of a memory to one value.
fn set_bytes(memory: &mut [u8], to: usize, count: usize, byte: u8)
    requires { to + count ≤ length memory.old }
    ensures { memory.new ≡ written to (replicate count byte) memory.old }
{
    memory[to..to + count].fill(byte);
}

/// `memory.copy`, where there is a memory.
pub(crate) fn copy(inner: &mut Active, memory: Option<u32>) -> After
    requires { inner.old.frame.place + 1 < 2 ^ 64 }
    ensures { Turns (with_memory memory (copy_of (inner_of inner.old)
        inner.old.frame.layered.values)) result inner.old inner.new }
{
    if memory.is_none() {
        return After::Ends(Stop::Stuck);
    }
    let Some(Value::I32(count)) = inner.frame.layered.pop() else {
        return After::Ends(Stop::Stuck);
    };
    let Some(Value::I32(from)) = inner.frame.layered.pop() else {
        return After::Ends(Stop::Stuck);
    };
    let Some(Value::I32(to)) = inner.frame.layered.pop() else {
        return After::Ends(Stop::Stuck);
    };
    let (count, from, to) = (count as usize, from as usize, to as usize);
    if inner.memory.len() < from + count {
        return After::Traps(TrapKind::MemoryBounds);
    }
    if inner.memory.len() < to + count {
        return After::Traps(TrapKind::MemoryBounds);
    }
    move_bytes(inner.memory.as_mut_slice(), from, to, count);
    inner.frame.place += 1;
    After::Goes
}

/// `memory.fill`, where there is a memory.
pub(crate) fn fill(inner: &mut Active, memory: Option<u32>) -> After
    requires { inner.old.frame.place + 1 < 2 ^ 64 }
    ensures { Turns (with_memory memory (fill_of (inner_of inner.old)
        inner.old.frame.layered.values)) result inner.old inner.new }
{
    if memory.is_none() {
        return After::Ends(Stop::Stuck);
    }
    let Some(Value::I32(count)) = inner.frame.layered.pop() else {
        return After::Ends(Stop::Stuck);
    };
    let Some(Value::I32(value)) = inner.frame.layered.pop() else {
        return After::Ends(Stop::Stuck);
    };
    let Some(Value::I32(to)) = inner.frame.layered.pop() else {
        return After::Ends(Stop::Stuck);
    };
    let (count, to) = (count as usize, to as usize);
    if inner.memory.len() < to + count {
        return After::Traps(TrapKind::MemoryBounds);
    }
    set_bytes(inner.memory.as_mut_slice(), to, count, (value % 256) as u8);
    inner.frame.place += 1;
    After::Goes
}
