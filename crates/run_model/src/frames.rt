//! Frames at their start, and what is left of a state where a call or the run is over.
ghost use Rattle.std.specs.Prelude.{◌≡◌, IfOk};
ghost use Rattle.run_rules.specs.Steps.{ended, over, blank as blank_frame, begun};
ghost use Rattle.run_model.specs.Views.{Steps, event_of, frame_of, inner_of};

use crate::state::{Machine, Next, Running, Stop};
use run_numbers::{Layered, value_at};
use run_rules::{Event, TrapKind, Value};
use std::alloc::Global;
use wasm_instr::LocalRun;
use wasm_types::FuncType;
use wl_base::{OutOfMemory, Seq};
use wl_stack::Stack;

/// No function runs.
pub(crate) fn blank(alloc: Global) -> Running
    ensures { frame_of result ≡ blank_frame }
{
    Running {
        place: 0,
        locals: Vec::new(alloc),
        layered: Layered::new(alloc),
        results: 0,
    }
}

/// A frame at its start, with these arguments.
pub(crate) fn new_frame(
    alloc: Global,
    kind: &FuncType,
    args: Seq<Value>,
    locals: &[LocalRun],
) -> Result<Running, OutOfMemory>
    ensures { IfOk result (λ frame. frame_of frame ≡ begun kind.now args locals.now) }
{
    let mut all = args.into_vec();
    for run in locals {
        let v = value_at(run.kind, 0);
        let len = all.len();
        if 0x7FFF_FFFF_FFFF_FFFF - len < run.count as usize {
            return Err(OutOfMemory);
        }
        all.resize(len + run.count as usize, v)?;
    }
    Ok(Running {
        place: 0,
        locals: all,
        layered: Layered::new(alloc),
        results: kind.results.len(),
    })
}

/// The event that tells why a run ends.
pub(crate) fn event_of(stop: Stop) -> Event
    ensures { result ≡ event_of stop }
{
    match stop {
        Stop::Stuck => Event::Stuck,
        Stop::StepsSpent => Event::StepsSpent,
        Stop::HostSpent => Event::HostSpent,
        Stop::Carried(opcode, number) => Event::Carried(opcode, number),
    }
}

/// The run ends.
#[cold]
pub(crate) fn end(alloc: Global, state: &mut Machine, stop: Stop) -> Next
    ensures { Steps (ended state.old.cells.items (inner_of state.old.inner) (event_of stop)) result
        state.new }
{
    state.names = Stack::new(alloc);
    state.inner.frame = blank(alloc);
    state.inner.below = Stack::new(alloc);
    Next::Halts(stop)
}

/// The call is over with this event.
pub(crate) fn finish(alloc: Global, state: &mut Machine, event: Event) -> Result<Next, OutOfMemory>
    ensures { IfOk result (λ next.
        Steps (over state.old.cells.items (inner_of state.old.inner) event) next state.new) }
{
    state.inner.events.push(event)?;
    state.names = Stack::new(alloc);
    state.inner.frame = blank(alloc);
    state.inner.below = Stack::new(alloc);
    Ok(Next::CallOver)
}

/// The call is over by a trap.
#[cold]
#[inline(never)]
pub(crate) fn trap(alloc: Global, state: &mut Machine, kind: TrapKind) -> Result<Next, OutOfMemory>
    ensures { IfOk result (λ next.
        Steps (over state.old.cells.items (inner_of state.old.inner) (Event.Trapped kind)) next
        state.new) }
{
    finish(alloc, state, Event::Trapped(kind))
}
