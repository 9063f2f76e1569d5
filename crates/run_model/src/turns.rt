//! How a run goes on after an instruction that asks nothing.
ghost use Rattle.std.specs.Prelude.{◌≡◌, ◌++◌, IfOk, OnOk, map, reverse, take};
ghost use Rattle.run_rules.specs.Steps.{left_to, over, turned};
ghost use Rattle.run_model.specs.Views.{Steps, frame_of, inner_of, turn_of};

use crate::frames::{end, finish, trap};
use crate::state::{After, Machine, Next};
use run_numbers::Layered;
use run_rules::{Event, Value};
use std::alloc::Global;
use wl_base::OutOfMemory;
use wl_stack::Stack;

/// The newest `count` values, or all where there are fewer; they are taken off.
#[tactic(auto, using(std::proofs::lemmas::List::take_all))]
fn take_newest(values: &mut Layered, count: usize) -> Result<Stack<Value>, OutOfMemory>
    ensures { IfOk result (λ top. top ≡ take count values.old.values) }
{
    if count < values.count() {
        values.take_top(count)
    } else {
        values.take_values()
    }
}

/// Puts the newest `count` values, or all where there are fewer, on top of others. One value, which
/// is what most functions give, takes no memory on its way.
fn hand_over(from: &mut Layered, count: usize, to: &mut Layered) -> Result<(), OutOfMemory>
    ensures { OnOk result
        (to.new ≡ record to.old { values = take count from.old.values ++ to.old.values }) }
{
    match count {
        0 => Ok(()),
        1 => match from.pop() {
            Some(v) => to.push(v),
            None => Ok(()),
        },
        _ => {
            let values = take_newest(from, count)?;
            to.put_on(values)
        }
    }
}

/// The function that was called gives back its results: the call is over.
#[cold]
#[inline(never)]
fn give_out(alloc: Global, state: &mut Machine) -> Result<Next, OutOfMemory>
    ensures { IfOk result (λ next.
        Steps (over state.old.cells.items (inner_of state.old.inner) (Event.Returned (reverse (take
        state.old.inner.frame.results state.old.inner.frame.layered.values)))) next state.new) }
{
    let values = take_newest(&mut state.inner.frame.layered, state.inner.frame.results)?;
    finish(alloc, state, Event::Returned(values.into_seq()))
}

/// A function gives back its results, to the one below or out of the call.
fn give_back(alloc: Global, state: &mut Machine) -> Result<Next, OutOfMemory>
    ensures { IfOk result (λ next.
        Steps (left_to (map frame_of state.old.inner.below) state.old.names state.old.cells.items
        (inner_of state.old.inner) (take state.old.inner.frame.results
        state.old.inner.frame.layered.values)) next state.new) }
{
    let count = state.inner.frame.results;
    match state.inner.below.pop() {
        None => give_out(alloc, state),
        Some(mut frame) => {
            hand_over(&mut state.inner.frame.layered, count, &mut frame.layered)?;
            state.inner.frame = frame;
            let _ = state.names.pop();
            Ok(Next::GoesOn)
        }
    }
}

/// Goes on as the instruction led to.
#[inline(never)]
pub(crate) fn turn(alloc: Global, state: &mut Machine, after: After) -> Result<Next, OutOfMemory>
    ensures { IfOk result (λ next.
        Steps (turned state.old.names state.old.cells.items (inner_of state.old.inner) (turn_of
        after state.old.inner)) next state.new) }
{
    match after {
        After::Goes => Ok(Next::GoesOn),
        After::Leaves => give_back(alloc, state),
        After::Traps(kind) => trap(alloc, state, kind),
        After::Ends(stop) => Ok(end(alloc, state, stop)),
    }
}
