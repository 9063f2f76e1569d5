//! Cells: the globals of a world (Core 4.4.6).
ghost use Rattle.std.specs.Prelude.{◌≡◌, ◌+◌, ◌<◌, ◌^◌, slice_get, IfOk};
ghost use Rattle.run_rules.specs.Steps.{joined, pushed, write_cell as write_cell_of};
ghost use Rattle.run_model.specs.Views.{Steps, inner_of};

use crate::frames::end;
use crate::state::{Machine, Next, Stop};
use run_rules::Value;
use std::alloc::Global;
use wl_base::OutOfMemory;

/// The value of a cell, where it has one.
pub(crate) fn cell_at(cells: &[Option<Value>], c: usize) -> Option<Value>
    ensures { result ≡ joined (slice_get cells.now c) }
{
    if c < cells.len() { cells[c] } else { None }
}

/// A value, on top.
pub(crate) fn put_value(
    alloc: Global,
    state: &mut Machine,
    v: Option<Value>,
) -> Result<Next, OutOfMemory>
    requires { state.old.inner.frame.place + 1 < 2 ^ 64 }
    ensures { IfOk result (λ next.
        Steps (pushed state.old.names state.old.cells.items (inner_of state.old.inner) v) next
        state.new) }
{
    match v {
        Some(v) => {
            state.inner.frame.layered.push(v)?;
            state.inner.frame.place += 1;
            Ok(Next::GoesOn)
        }
        None => Ok(end(alloc, state, Stop::Stuck)),
    }
}

/// `global.set`.
pub(crate) fn write_cell(alloc: Global, state: &mut Machine, c: usize) -> Next
    requires { state.old.inner.frame.place + 1 < 2 ^ 64 }
    ensures { Steps (write_cell_of state.old.names state.old.cells.items (inner_of state.old.inner)
        c state.old.inner.frame.layered.values) result state.new }
{
    match cell_at(state.cells.as_slice(), c) {
        Some(_) => match state.inner.frame.layered.pop() {
            Some(v) => {
                state.cells[c] = Some(v);
                state.inner.frame.place += 1;
                Next::GoesOn
            }
            None => end(alloc, state, Stop::Stuck),
        },
        None => end(alloc, state, Stop::Stuck),
    }
}
