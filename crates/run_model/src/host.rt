//! What the host does: its answers to calls (Core 4.4.10, host functions).
ghost use Rattle.std.specs.Prelude.{◌≡◌, ℕ, ◌+◌, ◌<◌, ◌≤◌, ◌^◌, true, length, reverse, Some};
ghost use Rattle.std.specs.Prelude.{slice_get, IfOk, OnOk};
ghost use Rattle.run_rules.specs.Memory.{written};
ghost use Rattle.run_rules.specs.Numbers.{type_of};
ghost use Rattle.run_rules.specs.Steps.{all_written, replied, have_types};
ghost use Rattle.run_model.specs.Writes.{all_fit};
ghost use Rattle.run_model.specs.Views.{Turns, asking_in, inner_of};

use crate::state::{Active, After, Stop};
use run_rules::{Answer, Event, MemWrite, Session, TrapKind, Value};
use std::alloc::Global;
use wasm_types::{FuncType, ValType};
use wl_base::{Name, OutOfMemory, Seq};

/// The type of a value.
fn type_at(v: Value) -> ValType
    ensures { result ≡ type_of v }
{
    match v {
        Value::I32(_) => ValType::I32,
        Value::I64(_) => ValType::I64,
        Value::F32(_) => ValType::F32,
        Value::F64(_) => ValType::F64,
    }
}

/// Whether values have these types.
pub(crate) fn have_types(values: &[Value], types: &[ValType]) -> bool
    ensures { result ≡ have_types values.now types.now }
{
    let mut vs = values;
    let mut ts = types;
    loop {
        match (vs, ts) {
            ([], []) => return true,
            ([v, more @ ..], [t, rest @ ..]) => {
                if type_at(*v) != *t {
                    return false;
                }
                vs = more;
                ts = rest;
            }
            _ => return false,
        }
    }
}

/// That the host is called, with these arguments.
pub(crate) fn asked(
    alloc: Global,
    from: &Name,
    name: &Name,
    args: Seq<Value>,
) -> Result<Event, OutOfMemory>
    ensures { IfOk result (λ event. event ≡ Event.Asked from.now name.now args) }
{
    let module = Seq::from_slice(alloc, from.as_slice())?;
    let field = Seq::from_slice(alloc, name.as_slice())?;
    Ok(Event::Asked {
        module,
        field,
        args,
    })
}

/// The host is called, as the event tells, and one answer of it is used: the one at this place.
pub(crate) fn ask(inner: &mut Active, event: Event) -> Result<usize, OutOfMemory>
    ensures place { IfOk result (λ place. place ≡ inner.old.answered) }
    ensures told { OnOk result (inner.new ≡ asking_in inner.old event) }
{
    let place = inner.answered;
    let Some(next) = place.checked_add(1) else {
        return Err(OutOfMemory);
    };
    inner.events.push(event)?;
    inner.answered = next;
    Ok(place)
}

/// Whether all that the host writes fits a memory of so many bytes.
fn all_fit(writes: &[MemWrite], room: usize) -> bool
    ensures { result ≡ all_fit room writes.now }
{
    for write in writes {
        if room < write.address as usize + write.bytes.as_slice().len() {
            return false;
        }
    }
    true
}

/// Writes bytes from an address on.
fn write_bytes(memory: &mut [u8], at: usize, bytes: &[u8])
    requires { at + length bytes.now ≤ length memory.old }
    ensures { memory.new ≡ written at bytes.now memory.old }
{
    memory[at..at + bytes.len()].copy_from_slice(bytes);
}

/// Writes what the host writes, one after another.
#[tactic(auto, using(crate::proofs::Writes::writing))]
fn write_all(memory: &mut [u8], writes: &[MemWrite])
    requires { all_fit (length memory.old) writes.now ≡ true }
    ensures { all_written writes.now memory.old ≡ Some memory.new }
{
    for write in writes {
        write_bytes(memory, write.address as usize, write.bytes.as_slice());
    }
}

/// What the answer at a place gives a call of a function of this type, whose arguments are taken off.
/// What doesn't fit the memory, or has other types, is no answer, and nothing of it is written.
#[tactic(auto, using(crate::proofs::Writes::refused))]
pub(crate) fn reply(
    session: &Session,
    kind: &FuncType,
    inner: &mut Active,
    place: usize,
) -> Result<After, OutOfMemory>
    requires { inner.old.frame.place + 1 < 2 ^ 64 }
    ensures { IfOk result (λ after.
        Turns (replied kind.now (inner_of inner.old) inner.old.frame.layered.values (slice_get
        session.now.answers place)) after inner.old inner.new) }
{
    match session.answers.get(place) {
        Some(Answer::Results { writes, values }) => {
            if !have_types(values.as_slice(), kind.results.as_slice()) {
                return Ok(After::Ends(Stop::HostSpent));
            }
            if !all_fit(writes.as_slice(), inner.memory.len()) {
                return Ok(After::Ends(Stop::HostSpent));
            }
            write_all(inner.memory.as_mut_slice(), writes.as_slice());
            inner.frame.layered.push_all(values.as_slice())?;
            inner.frame.place += 1;
            Ok(After::Goes)
        }
        Some(Answer::Trap) => Ok(After::Traps(TrapKind::HostTrap)),
        _ => Ok(After::Ends(Stop::HostSpent)),
    }
}
