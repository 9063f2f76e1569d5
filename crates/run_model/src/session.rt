//! Sessions, and their traces.
ghost use Rattle.std.specs.Prelude.{◌≡◌, IfOk};
ghost use Rattle.run_rules.specs.Runs.{closing, trace_of};
ghost use Rattle.run_rules.specs.Modules.{at_first};
ghost use Rattle.run_model.specs.Views.{state_of};

use crate::begin::begin;
use crate::cells::cell_at;
use crate::ends::tables_of;
use crate::frames::{blank, event_of};
use crate::state::{Active, Machine};
use crate::step::drive_on;
use run_rules::{NamedValue, Session, Target, Trace, Value, World};
use std::alloc::Global;
use wl_base::{OutOfMemory, Seq};
use wl_stack::Stack;

/// The trace as it stands: the values of exported cells come in the order of exports.
fn close(alloc: Global, world: &World, state: Machine) -> Result<Trace, OutOfMemory>
    ensures { IfOk result (λ trace. trace ≡ closing world.now (state_of state)) }
{
    let Machine {
        names: _,
        cells,
        inner,
    } = state;
    let mut globals = Seq::new(alloc);
    for e in world.exports.as_slice() {
        let value = match e.target {
            Target::ToCell(c) => cell_at(cells.as_slice(), c as usize),
            Target::ToNumber(n) => Some(Value::I32(n)),
            _ => None,
        };
        if let Some(value) = value {
            let name = Seq::from_slice(alloc, e.name.as_slice())?;
            globals.push(NamedValue { name, value })?;
        }
    }
    Ok(Trace {
        events: inner.events,
        memory: Seq::from_vec(inner.memory),
        globals,
    })
}

/// The trace of a session from this state.
#[tactic(auto, unfolding(run_rules::specs::Runs::play))]
fn run_from(
    alloc: Global,
    world: &World,
    session: &Session,
    start: Machine,
    steps: u64,
) -> Result<Trace, OutOfMemory>
    ensures { IfOk result (λ trace. trace ≡ trace_of world.now session.now (state_of start) steps) }
{
    let tables = tables_of(alloc, world.functions.as_slice())?;
    let mut state = start;
    let mut left = steps;
    for call in session.calls.as_slice() {
        let next = begin(alloc, world, session, &mut state, call)?;
        if let Some(stop) = drive_on(alloc, world, &tables, session, &mut state, &mut left, next)? {
            state.inner.events.push(event_of(stop))?;
            return close(alloc, world, state);
        }
    }
    close(alloc, world, state)
}

/// The trace of a session in a world where the cells have these values at first and the memory holds
/// these bytes, with a bound on steps.
///
/// # Errors
/// Want of memory, which no trace tells of. A memory of 2^32 pages, whose size no instruction can tell, is
/// answered so too.
pub fn run(
    alloc: Global,
    world: &World,
    session: &Session,
    cells: Seq<Option<Value>>,
    memory: Seq<u8>,
    steps: u64,
) -> Result<Trace, OutOfMemory>
    ensures { IfOk result (λ trace.
        trace ≡ trace_of world.now session.now (at_first cells memory) steps) }
{
    let start = Machine {
        names: Stack::new(alloc),
        cells: cells.into_vec(),
        inner: Active {
            frame: blank(alloc),
            below: Stack::new(alloc),
            memory: memory.into_vec(),
            answered: 0,
            events: Seq::new(alloc),
        },
    };
    run_from(alloc, world, session, start, steps)
}
