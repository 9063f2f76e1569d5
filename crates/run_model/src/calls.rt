//! Calls of functions of a world (Core 4.4.8 and 4.4.10).
ghost use Rattle.std.specs.Prelude.{◌≡◌, ◌+◌, ◌<◌, ◌^◌, IfOk, option_copied};
ghost use Rattle.run_rules.specs.Steps.{begun, call_as as call_as_of};
ghost use Rattle.run_rules.specs.Steps.{call_through as call_through_of};
ghost use Rattle.run_rules.specs.Steps.{function_at as function_of};
ghost use Rattle.run_model.specs.Views.{Steps, inner_of, called_in};

use crate::frames::{end, new_frame, trap};
use crate::host::{ask, asked, reply};
use crate::state::{Machine, Next, Stop};
use crate::turns::turn;
use run_rules::{Function, Session, Source, TrapKind, Value, World};
use std::alloc::Global;
use std::mem;
use wasm_instr::LocalRun;
use wasm_types::FuncType;
use wl_base::{OutOfMemory, Seq};

/// The function of a name, where it has a type.
pub(crate) fn function_at(world: &World, g: u32) -> Option<&Function>
    ensures { option_copied result ≡ function_of world.now g }
{
    match world.functions.get(g as usize) {
        Some(Some(f)) => Some(f),
        _ => None,
    }
}

/// Into a function with a body, with these arguments.
fn enter_code(
    alloc: Global,
    state: &mut Machine,
    g: u32,
    kind: &FuncType,
    args: Seq<Value>,
    locals: &[LocalRun],
) -> Result<Next, OutOfMemory>
    requires { state.old.inner.frame.place + 1 < 2 ^ 64 }
    ensures { IfOk result (λ next.
        Steps (called_in g state.old.names state.old.cells.items (inner_of state.old.inner) (begun
        kind.now args locals.now)) next state.new) }
{
    let frame = new_frame(alloc, kind, args, locals)?;
    let mut caller = mem::replace(&mut state.inner.frame, frame);
    caller.place += 1;
    state.inner.below.push(caller)?;
    state.names.push(g)?;
    Ok(Next::GoesOn)
}

/// Into a function of this type: its body, or the host. The room for an event that this takes is
/// no part of the loop over steps.
#[inline(never)]
pub(crate) fn call_as(
    alloc: Global,
    session: &Session,
    state: &mut Machine,
    g: u32,
    kind: &FuncType,
    source: &Source,
) -> Result<Next, OutOfMemory>
    requires { state.old.inner.frame.place + 1 < 2 ^ 64 }
    ensures { IfOk result (λ next.
        Steps (call_as_of session.now g state.old.names state.old.cells.items (inner_of
        state.old.inner) state.old.inner.frame.layered.values kind.now source.now) next
        state.new) }
{
    let count = kind.params.len();
    if state.inner.frame.layered.count() < count {
        return Ok(end(alloc, state, Stop::Stuck));
    }
    let args = state.inner.frame.layered.take_top(count)?.into_seq();
    match source {
        Source::Nowhere => Ok(end(alloc, state, Stop::Stuck)),
        Source::Code { locals, code: _ } => enter_code(
            alloc,
            state,
            g,
            kind,
            args,
            locals.as_slice(),
        ),
        Source::Host { module, field } => {
            let event = asked(alloc, module, field, args)?;
            let place = ask(&mut state.inner, event)?;
            let after = reply(session, kind, &mut state.inner, place)?;
            turn(alloc, state, after)
        }
    }
}

/// `call_indirect`, with the written type.
pub(crate) fn call_through(
    alloc: Global,
    world: &World,
    session: &Session,
    state: &mut Machine,
    t: &FuncType,
) -> Result<Next, OutOfMemory>
    requires { state.old.inner.frame.place + 1 < 2 ^ 64 }
    ensures { IfOk result (λ next.
        Steps (call_through_of world.now session.now state.old.names state.old.cells.items (inner_of
        state.old.inner) t.now world.now.table) next state.new) }
{
    let Some(slots) = &world.table else {
        return Ok(end(alloc, state, Stop::Stuck));
    };
    let Some(Value::I32(k)) = state.inner.frame.layered.pop() else {
        return Ok(end(alloc, state, Stop::Stuck));
    };
    match slots.get(k as usize) {
        None => trap(alloc, state, TrapKind::TableBounds),
        Some(None) => trap(alloc, state, TrapKind::NullEntry),
        Some(Some(g)) => match function_at(world, *g) {
            None => Ok(end(alloc, state, Stop::Stuck)),
            Some(f) => {
                if f.kind == *t {
                    call_as(alloc, session, state, *g, &f.kind, &f.source)
                } else {
                    trap(alloc, state, TrapKind::TypeDiffers)
                }
            }
        },
    }
}
