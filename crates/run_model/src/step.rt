//! Steps.
ghost use Rattle.std.specs.Prelude.{◌≡◌, map, IfOk};
ghost use Rattle.run_rules.specs.Steps.{step};
ghost use Rattle.run_rules.specs.Runs.{drive};
ghost use Rattle.run_model.specs.Table.{ends_in};
ghost use Rattle.run_model.specs.Views.{Steps, Drives, how_of, state_of};

use crate::calls::{call_as, call_through, function_at};
use crate::cells::{cell_at, put_value, write_cell};
use crate::control::open_block;
use crate::ends::{Ends, ends_at};
use crate::frames::end;
use crate::own::own;
use crate::state::{After, Machine, Next, Stop};
use crate::turns::turn;
use run_rules::{Op, Session, Source, Value, World};
use std::alloc::Global;
use wl_base::{OutOfMemory, Seq};
use wl_stack::Stack;

/// One instruction.
#[tactic(auto, unfolding(run_rules::specs::Steps::step))]
fn step_once(
    alloc: Global,
    world: &World,
    tables: &Seq<Stack<Ends>>,
    session: &Session,
    state: &mut Machine,
) -> Result<Next, OutOfMemory>
    requires { tables.now ≡ map ends_in world.now.functions }
    ensures { IfOk result (λ next.
        Steps (step world.now session.now (state_of state.old)) next state.new) }
{
    let Some(f) = state.names.top() else {
        return Ok(end(alloc, state, Stop::Stuck));
    };
    let Some(function) = function_at(world, f) else {
        return Ok(end(alloc, state, Stop::Stuck));
    };
    let Source::Code { locals: _, code } = &function.source else {
        return Ok(end(alloc, state, Stop::Stuck));
    };
    let code = code.as_slice();
    if code.len() <= state.inner.frame.place {
        return Ok(end(alloc, state, Stop::Stuck));
    }
    let op = &code[state.inner.frame.place];
    match op {
        Op::Own(x) => match own(world.memory, session, &mut state.inner, x)? {
            After::Goes => Ok(Next::GoesOn),
            after => turn(alloc, state, after),
        },
        Op::OpenBlock { opcode, kind } => {
            let ends = ends_at(tables, code, f, state.inner.frame.place);
            match open_block(&mut state.inner, code, ends, *opcode, kind)? {
                After::Goes => Ok(Next::GoesOn),
                after => turn(alloc, state, after),
            }
        }
        Op::CallTo(g) => match function_at(world, *g) {
            Some(callee) => call_as(alloc, session, state, *g, &callee.kind, &callee.source),
            None => Ok(end(alloc, state, Stop::Stuck)),
        },
        Op::CallThrough(t) => call_through(alloc, world, session, state, t),
        Op::ReadCell(c) => {
            let v = cell_at(state.cells.as_slice(), *c as usize);
            put_value(alloc, state, v)
        }
        Op::WriteCell(c) => Ok(write_cell(alloc, state, *c as usize)),
        Op::Number(n) => put_value(alloc, state, Some(Value::I32(*n))),
        Op::Absent => Ok(end(alloc, state, Stop::Stuck)),
    }
}

/// Steps until the call is over, or the trace is closed by an event.
#[tactic(auto, unfolding(run_rules::specs::Runs::drive))]
pub(crate) fn drive_on(
    alloc: Global,
    world: &World,
    tables: &Seq<Stack<Ends>>,
    session: &Session,
    state: &mut Machine,
    left: &mut u64,
    first: Next,
) -> Result<Option<Stop>, OutOfMemory>
    requires { tables.now ≡ map ends_in world.now.functions }
    ensures { IfOk result (λ stop.
        Drives world.now (drive world.now session.now left.old (state_of state.old) (how_of first))
        stop state.new left.new) }
{
    let mut next = first;
    loop {
        match next {
            Next::CallOver => return Ok(None),
            Next::Halts(stop) => return Ok(Some(stop)),
            Next::GoesOn => {
                if *left == 0 {
                    return Ok(Some(Stop::StepsSpent));
                }
                *left -= 1;
                next = step_once(alloc, world, tables, session, state)?;
            }
        }
    }
}
