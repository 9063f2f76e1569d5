//! The size of the memory, and its growth.
ghost use Rattle.std.specs.Prelude.{◌≡◌, ℕ, ◌+◌, ◌*◌, ◌<◌, ◌^◌, ◌∷◌, IfOk};
ghost use Rattle.run_rules.specs.declared.value.Value.TheVariants.{I32};
ghost use Rattle.run_rules.specs.Memory.{pages as pages_of};
ghost use Rattle.run_rules.specs.Own.{Goes, moved, with_memory, grow_within};
ghost use Rattle.run_model.specs.Views.{Turns, inner_of};

use crate::state::{Active, After, Stop};
use run_rules::{Answer, Session, Value};
use wl_base::OutOfMemory;

// The pages of a memory. One that has 2^32 pages or more is taken for want of memory.
fn pages(memory: &[u8]) -> Result<u32, OutOfMemory>
    ensures { IfOk result (λ n. n ≡ pages_of memory.now) }
{
    let n = memory.len() / 65536;
    if n < 0x1_0000_0000 {
        Ok(n as u32)
    } else {
        Err(OutOfMemory)
    }
}

/// `memory.size`.
pub(crate) fn size(inner: &mut Active, memory: Option<u32>) -> Result<After, OutOfMemory>
    requires { inner.old.frame.place + 1 < 2 ^ 64 }
    ensures { IfOk result (λ after.
        Turns (with_memory memory (Goes (moved (inner_of inner.old) (I32 (pages_of
        inner.old.memory.items) ∷ inner.old.frame.layered.values)))) after inner.old inner.new) }
{
    if memory.is_none() {
        return Ok(After::Ends(Stop::Stuck));
    }
    let n = pages(inner.memory.as_slice())?;
    inner.frame.layered.push(Value::I32(n))?;
    inner.frame.place += 1;
    Ok(After::Goes)
}

/// `memory.grow`.
pub(crate) fn grow(
    inner: &mut Active,
    memory: Option<u32>,
    session: &Session,
) -> Result<After, OutOfMemory>
    requires { inner.old.frame.place + 1 < 2 ^ 64 }
    ensures { IfOk result (λ after.
        Turns (grow_within memory session.now (inner_of inner.old)) after inner.old inner.new) }
{
    let Some(most) = memory else {
        return Ok(After::Ends(Stop::Stuck));
    };
    let n = pages(inner.memory.as_slice())?;
    let Some(Value::I32(d)) = inner.frame.layered.pop() else {
        return Ok(After::Ends(Stop::Stuck));
    };
    let limit: u32 = if most <= 65536 { most } else { 65536 };
    if (limit as u64) < n as u64 + d as u64 {
        inner.frame.layered.push(Value::I32(0xFFFF_FFFF))?;
        inner.frame.place += 1;
        return Ok(After::Goes);
    }
    let count = session.answers.len();
    if count <= inner.answered {
        return Ok(After::Ends(Stop::HostSpent));
    }
    match session.answers.get(inner.answered) {
        Some(Answer::Grow(true)) => {
            let len = inner.memory.len() + 65536 * d as usize;
            inner.memory.resize(len, 0)?;
            inner.answered += 1;
            inner.frame.layered.push(Value::I32(n))?;
            inner.frame.place += 1;
            Ok(After::Goes)
        }
        Some(Answer::Grow(false)) => {
            inner.answered += 1;
            inner.frame.layered.push(Value::I32(0xFFFF_FFFF))?;
            inner.frame.place += 1;
            Ok(After::Goes)
        }
        _ => Ok(After::Ends(Stop::HostSpent)),
    }
}
