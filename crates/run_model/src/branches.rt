//! Branches, and the ends of blocks and functions (Core 4.4.8).
ghost use Rattle.std.specs.Prelude.{◌≡◌, ℕ, ◌+◌, ◌<◌, ◌≤◌, ◌^◌, List, length, IfOk};
ghost use Rattle.run_rules.specs.Own.{returns, finishes, branch as branch_of};
ghost use Rattle.run_rules.specs.Own.{branch_if as branch_if_of, branch_table as branch_table_of};
ghost use Rattle.run_rules.specs.Own.{entered, parted, closed};
ghost use Rattle.run_model.specs.Views.{Turns, Left, frame_of, inner_of};

use crate::state::{Active, After, Running, Stop};
use run_numbers::Jump;
use run_rules::Value;
use wl_base::OutOfMemory;

/// `return`: out of the function with its results, whatever else is there.
pub(crate) fn leave(frame: &Running) -> After
    ensures { Left (returns (frame_of frame.now) frame.now.layered.values) result frame.now }
{
    if frame.results <= frame.layered.count() {
        After::Leaves
    } else {
        After::Ends(Stop::Stuck)
    }
}

/// The end of the function, where its results and nothing else are there.
#[tactic(auto, using(std::proofs::lemmas::List::take_all))]
fn finish_frame(frame: &Running) -> After
    ensures { Left (finishes (frame_of frame.now)) result frame.now }
{
    if frame.results == frame.layered.count() {
        After::Leaves
    } else {
        After::Ends(Stop::Stuck)
    }
}

/// `br`: to a label.
pub(crate) fn branch(inner: &mut Active, k: usize) -> Result<After, OutOfMemory>
    ensures { IfOk result (λ after.
        Turns (branch_of (inner_of inner.old) inner.old.frame.layered.values k) after inner.old
        inner.new) }
{
    let depth = inner.frame.layered.depth();
    match inner.frame.layered.jump(k)? {
        Jump::To(target) => {
            inner.frame.place = target;
            Ok(After::Goes)
        }
        Jump::Short => Ok(After::Ends(Stop::Stuck)),
        Jump::Past => {
            if k != depth {
                return Ok(After::Ends(Stop::Stuck));
            }
            Ok(leave(&inner.frame))
        }
    }
}

/// `br_if`.
pub(crate) fn branch_if(inner: &mut Active, k: usize) -> Result<After, OutOfMemory>
    requires { inner.old.frame.place + 1 < 2 ^ 64 }
    ensures { IfOk result (λ after.
        Turns (branch_if_of (inner_of inner.old) k inner.old.frame.layered.values) after inner.old
        inner.new) }
{
    match inner.frame.layered.pop() {
        Some(Value::I32(0)) => {
            inner.frame.place += 1;
            Ok(After::Goes)
        }
        Some(Value::I32(_)) => branch(inner, k),
        _ => Ok(After::Ends(Stop::Stuck)),
    }
}

/// `br_table`.
pub(crate) fn branch_table(
    inner: &mut Active,
    labels: &[u32],
    last: u32,
) -> Result<After, OutOfMemory>
    ensures { IfOk result (λ after.
        Turns (branch_table_of (inner_of inner.old) labels.now last inner.old.frame.layered.values)
        after inner.old inner.new) }
{
    match inner.frame.layered.pop() {
        Some(Value::I32(n)) => {
            let k = match labels.get(n as usize) {
                Some(k) => *k,
                None => last,
            };
            branch(inner, k as usize)
        }
        _ => Ok(After::Ends(Stop::Stuck)),
    }
}

/// Into a block, with so many values; its label takes `arity` of them to `target`.
pub(crate) fn enter(
    inner: &mut Active,
    place: usize,
    target: usize,
    params: usize,
    arity: usize,
) -> Result<After, OutOfMemory>
    ensures { IfOk result (λ after.
        Turns (entered (inner_of inner.old) place target params arity
        inner.old.frame.layered.values) after inner.old inner.new) }
{
    if inner.frame.layered.count() < params {
        return Ok(After::Ends(Stop::Stuck));
    }
    inner.frame.layered.open(target, arity, params)?;
    inner.frame.place = place;
    Ok(After::Goes)
}

/// An `else` that is reached.
pub(crate) fn part(inner: &mut Active) -> After
    ensures { Turns (parted (inner_of inner.old) inner.old.frame.layered.labels) result inner.old
        inner.new }
{
    match inner.frame.layered.close() {
        Some(target) => {
            inner.frame.place = target;
            After::Goes
        }
        None => After::Ends(Stop::Stuck),
    }
}

/// An `end`.
pub(crate) fn close(inner: &mut Active) -> Result<After, OutOfMemory>
    requires { inner.old.frame.place + 1 < 2 ^ 64 }
    ensures { IfOk result (λ after.
        Turns (closed (inner_of inner.old) inner.old.frame.layered.labels) after inner.old
        inner.new) }
{
    match inner.frame.layered.close() {
        Some(_) => {
            inner.frame.place += 1;
            Ok(After::Goes)
        }
        None => Ok(finish_frame(&inner.frame)),
    }
}
