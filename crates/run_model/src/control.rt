//! Into blocks (Core 4.4.8).
ghost use Rattle.std.specs.Prelude.{◌≡◌, ℕ, ◌+◌, ◌<◌, ◌^◌, map, drop, length, IfOk, IfSome};
ghost use Rattle.run_rules.specs.Control.{mark};
ghost use Rattle.run_rules.specs.Own.{chosen, open_block as open_block_of};
ghost use Rattle.run_model.specs.Table.{ends_behind};
ghost use Rattle.run_model.specs.Views.{Turns, inner_of};

use crate::branches::enter;
use crate::ends::Ends;
use crate::opcodes::{BLOCK, IF, LOOP};
use crate::state::{Active, After, Stop};
use run_rules::{Op, Value};
use wasm_types::FuncType;
use wl_base::OutOfMemory;

/// An `if`, whose label leads to `target`, and which goes on at `other` where it isn't taken.
fn choose(
    inner: &mut Active,
    target: usize,
    kind: &FuncType,
    other: Option<usize>,
) -> Result<After, OutOfMemory>
    requires { inner.old.frame.place + 1 < 2 ^ 64 }
    ensures { IfOk result (λ after.
        Turns (chosen (inner_of inner.old) target kind.now other inner.old.frame.layered.values)
        after inner.old inner.new) }
{
    let next = inner.frame.place + 1;
    let params = kind.params.len();
    let results = kind.results.len();
    match inner.frame.layered.pop() {
        Some(Value::I32(0)) => match other {
            Some(place) => enter(inner, place, target, params, results),
            None => Ok(After::Ends(Stop::Stuck)),
        },
        Some(Value::I32(_)) => enter(inner, next, target, params, results),
        _ => Ok(After::Ends(Stop::Stuck)),
    }
}

/// A `block`, a `loop` or an `if` in this code, whose block ends there.
#[tactic(auto, unfolding(run_rules::specs::Own::open_block))]
pub(crate) fn open_block(
    inner: &mut Active,
    code: &[Op],
    ends: Ends,
    op: u8,
    kind: &FuncType,
) -> Result<After, OutOfMemory>
    requires place { inner.old.frame.place < length code.now }
    requires within { IfSome ends.end (λ end. end < length code.now) }
    requires ends { ends ≡ ends_behind (inner.old.frame.place + 1) (drop (inner.old.frame.place + 1)
        (map mark code.now)) }
    ensures { IfOk result (λ after.
        Turns (open_block_of (inner_of inner.old) (map mark code.now) op kind.now) after inner.old
        inner.new) }
{
    let here = inner.frame.place;
    let next = here + 1;
    let Some(end) = ends.end else {
        return Ok(After::Ends(Stop::Stuck));
    };
    let params = kind.params.len();
    match op {
        BLOCK => enter(inner, next, end + 1, params, kind.results.len()),
        LOOP => enter(inner, next, here, params, params),
        IF => choose(inner, end + 1, kind, ends.other),
        _ => Ok(After::Ends(Stop::Stuck)),
    }
}
