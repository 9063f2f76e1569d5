//! Instructions that move values (Core 4.4.4 and 4.4.5) or compute them (Core 4.4.1).
ghost use Rattle.std.specs.Prelude.{◌≡◌, ℕ, ◌+◌, ◌<◌, ◌^◌, IfOk};
ghost use Rattle.run_rules.specs.Own.{local as local_of, dropped, selected, on_values};
ghost use Rattle.run_rules.specs.Numbers.{computed};
ghost use Rattle.run_model.specs.Views.{Turns, inner_of};

use crate::opcodes::{LOCAL_GET, LOCAL_SET, LOCAL_TEE};
use crate::state::{Active, After, Stop};
use run_numbers::{Went, compute};
use run_rules::Value;
use wl_base::OutOfMemory;

/// `local.get`, `local.set` or `local.tee`.
pub(crate) fn local(inner: &mut Active, op: u8, k: usize) -> Result<After, OutOfMemory>
    requires { inner.old.frame.place + 1 < 2 ^ 64 }
    ensures { IfOk result (λ after.
        Turns (local_of (inner_of inner.old) op k) after inner.old inner.new) }
{
    if op == LOCAL_GET {
        if k < inner.frame.locals.len() {
            let v = inner.frame.locals[k];
            inner.frame.layered.push(v)?;
            inner.frame.place += 1;
            return Ok(After::Goes);
        }
    } else if op == LOCAL_SET {
        if let Some(v) = inner.frame.layered.pop() {
            if k < inner.frame.locals.len() {
                inner.frame.locals[k] = v;
                inner.frame.place += 1;
                return Ok(After::Goes);
            }
        }
    } else if op == LOCAL_TEE {
        if let Some(v) = inner.frame.layered.pop() {
            if k < inner.frame.locals.len() {
                inner.frame.layered.push(v)?;
                inner.frame.locals[k] = v;
                inner.frame.place += 1;
                return Ok(After::Goes);
            }
        }
    }
    Ok(After::Ends(Stop::Stuck))
}

/// `drop`.
pub(crate) fn discard(inner: &mut Active, op: u8) -> After
    requires { inner.old.frame.place + 1 < 2 ^ 64 }
    ensures { Turns (on_values (inner_of inner.old) op (dropped inner.old.frame.layered.values))
        result inner.old inner.new }
{
    match inner.frame.layered.pop() {
        Some(_) => {
            inner.frame.place += 1;
            After::Goes
        }
        None => After::Ends(Stop::Stuck),
    }
}

/// `select`, of either opcode.
pub(crate) fn select(inner: &mut Active, op: u8) -> Result<After, OutOfMemory>
    requires { inner.old.frame.place + 1 < 2 ^ 64 }
    ensures { IfOk result (λ after.
        Turns (on_values (inner_of inner.old) op (selected inner.old.frame.layered.values)) after
        inner.old inner.new) }
{
    let Some(c) = inner.frame.layered.pop() else {
        return Ok(After::Ends(Stop::Stuck));
    };
    let Value::I32(c) = c else {
        return Ok(After::Ends(Stop::Stuck));
    };
    let Some(b) = inner.frame.layered.pop() else {
        return Ok(After::Ends(Stop::Stuck));
    };
    let Some(a) = inner.frame.layered.pop() else {
        return Ok(After::Ends(Stop::Stuck));
    };
    if c == 0 {
        inner.frame.layered.push(b)?;
    } else {
        inner.frame.layered.push(a)?;
    }
    inner.frame.place += 1;
    Ok(After::Goes)
}

/// An opcode without immediates that computes.
pub(crate) fn number(inner: &mut Active, op: u8) -> Result<After, OutOfMemory>
    requires { inner.old.frame.place + 1 < 2 ^ 64 }
    ensures { IfOk result (λ after.
        Turns (on_values (inner_of inner.old) op (computed op inner.old.frame.layered.values)) after
        inner.old inner.new) }
{
    match compute(op, &mut inner.frame.layered)? {
        Went::Well => {
            inner.frame.place += 1;
            Ok(After::Goes)
        }
        Went::Wrong(k) => Ok(After::Traps(k)),
        Went::Foreign => Ok(After::Ends(Stop::Carried(op, 0))),
        Went::Nowhere => Ok(After::Ends(Stop::Stuck)),
    }
}
