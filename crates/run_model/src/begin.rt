//! How a call of the session begins.
ghost use Rattle.std.specs.Prelude.{◌≡◌, [], IfOk};
ghost use Rattle.run_rules.specs.Runs.{begin as begin_of, begin_as as begin_as_of, called};
ghost use Rattle.run_model.specs.Views.{Steps, hosting, inner_of, state_of};

use crate::calls::function_at;
use crate::frames::{blank, end, finish, new_frame, trap};
use crate::host::{ask, asked, have_types, reply};
use crate::state::{After, Machine, Next, Stop};
use run_rules::{Call, Event, Session, Source, Target, World};
use std::alloc::Global;
use wasm_types::FuncType;
use wl_base::{OutOfMemory, Seq};
use wl_stack::Stack;

/// The first exported function of that name and types.
fn called(world: &World, call: &Call) -> Option<u32>
    ensures { result ≡ called world.now call.now world.now.exports }
{
    for e in world.exports.as_slice() {
        if let Target::ToFunction(f) = e.target {
            if e.name.as_slice() == call.name.as_slice() {
                if let Some(fun) = function_at(world, f) {
                    if have_types(call.args.as_slice(), fun.kind.params.as_slice()) {
                        return Some(f);
                    }
                }
            }
        }
    }
    None
}

/// The host runs the function of a call of the session, which takes no step.
fn ask_host(
    alloc: Global,
    session: &Session,
    state: &mut Machine,
    kind: &FuncType,
    event: Event,
) -> Result<Next, OutOfMemory>
    ensures { IfOk result (λ next.
        Steps (hosting session.now state.old.cells.items (inner_of state.old.inner) kind.now event)
        next state.new) }
{
    let place = ask(&mut state.inner, event)?;
    state.inner.frame = blank(alloc);
    match reply(session, kind, &mut state.inner, place)? {
        After::Goes => {
            let values = state.inner.frame.layered.take_values()?;
            finish(alloc, state, Event::Returned(values.into_seq()))
        }
        After::Leaves => Ok(end(alloc, state, Stop::Stuck)),
        After::Traps(kind) => trap(alloc, state, kind),
        After::Ends(stop) => Ok(end(alloc, state, stop)),
    }
}

/// A call of a function of this type begins.
fn begin_as(
    alloc: Global,
    session: &Session,
    state: &mut Machine,
    f: u32,
    call: &Call,
    kind: &FuncType,
    source: &Source,
) -> Result<Next, OutOfMemory>
    ensures { IfOk result (λ next.
        Steps (begin_as_of session.now f state.old.cells.items (inner_of state.old.inner) call.now
        kind.now source.now) next state.new) }
{
    match source {
        Source::Nowhere => Ok(end(alloc, state, Stop::Stuck)),
        Source::Host { module, field } => {
            let args = Seq::from_slice(alloc, call.args.as_slice())?;
            let event = asked(alloc, module, field, args)?;
            ask_host(alloc, session, state, kind, event)
        }
        Source::Code { locals, code: _ } => {
            let args = Seq::from_slice(alloc, call.args.as_slice())?;
            state.inner.frame = new_frame(alloc, kind, args, locals.as_slice())?;
            state.inner.below = Stack::new(alloc);
            state.names = Stack::new(alloc);
            state.names.push(f)?;
            Ok(Next::GoesOn)
        }
    }
}

/// A call of the session begins: it runs, it is over at once, or the run ends.
#[tactic(auto, unfolding(run_rules::specs::Runs::begin))]
pub(crate) fn begin(
    alloc: Global,
    world: &World,
    session: &Session,
    state: &mut Machine,
    call: &Call,
) -> Result<Next, OutOfMemory>
    ensures { IfOk result (λ next.
        Steps (begin_of world.now session.now (state_of state.old) call.now) next state.new) }
{
    let Some(f) = called(world, call) else {
        return finish(alloc, state, Event::NotCalled);
    };
    match function_at(world, f) {
        Some(function) => begin_as(
            alloc,
            session,
            state,
            f,
            call,
            &function.kind,
            &function.source,
        ),
        None => Ok(end(alloc, state, Stop::Stuck)),
    }
}
