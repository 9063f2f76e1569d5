//! Instructions on numbers.
ghost use Rattle.std.specs.Prelude.{◌≡◌, true, IfOk};
ghost use Rattle.run_rules.specs.Numbers.{by_class, computed};
ghost use Rattle.run_rules.specs.declared.value.Class.TheVariants.{Tests, Compares, Ones, Twos};
ghost use Rattle.run_rules.specs.declared.value.Class.TheVariants.{Converts};
ghost use Rattle.run_numbers.specs.Told.{Does, narrow};

use crate::class::class_at;
use crate::layers::Layered;
use crate::rows::{Answered, act_on_one, act_on_two, compare, convert_to_32, convert_to_64};
use crate::width::{number_of, value_at};
use run_rules::{Class, TrapKind, Value};
use wasm_types::ValType;
use wl_base::OutOfMemory;

/// What an instruction did to the values.
#[derive(Clone, Copy)]
pub enum Went {
    /// These are left.
    Well,
    /// It traps.
    Wrong(TrapKind),
    /// It is carried.
    Foreign,
    /// It has no rule.
    Nowhere,
}

fn test(values: &mut Layered, t: ValType) -> Result<Went, OutOfMemory>
    ensures { IfOk result (λ w.
        Does (by_class (Tests t) values.old.values) w values.old values.new) }
{
    let Some(x) = values.pop() else {
        return Ok(Went::Nowhere);
    };
    let Some(a) = number_of(t, x) else {
        return Ok(Went::Nowhere);
    };
    values.push(Value::I32((a == 0) as u32))?;
    Ok(Went::Well)
}

fn compare_two(values: &mut Layered, t: ValType, k: u8) -> Result<Went, OutOfMemory>
    ensures { IfOk result (λ w.
        Does (by_class (Compares t k) values.old.values) w values.old values.new) }
{
    let Some(y) = values.pop() else {
        return Ok(Went::Nowhere);
    };
    let Some(x) = values.pop() else {
        return Ok(Went::Nowhere);
    };
    let Some(a) = number_of(t, x) else {
        return Ok(Went::Nowhere);
    };
    let Some(b) = number_of(t, y) else {
        return Ok(Went::Nowhere);
    };
    let said = compare(k, t, a, b);
    values.push(Value::I32(said as u32))?;
    Ok(Went::Well)
}

fn one(values: &mut Layered, t: ValType, k: u8) -> Result<Went, OutOfMemory>
    ensures { IfOk result (λ w.
        Does (by_class (Ones t k) values.old.values) w values.old values.new) }
{
    let Some(x) = values.pop() else {
        return Ok(Went::Nowhere);
    };
    let Some(a) = number_of(t, x) else {
        return Ok(Went::Nowhere);
    };
    let n = act_on_one(k, t, a);
    values.push(value_at(t, n))?;
    Ok(Went::Well)
}

fn two(values: &mut Layered, t: ValType, k: u8) -> Result<Went, OutOfMemory>
    ensures { IfOk result (λ w.
        Does (by_class (Twos t k) values.old.values) w values.old values.new) }
{
    let Some(y) = values.pop() else {
        return Ok(Went::Nowhere);
    };
    let Some(x) = values.pop() else {
        return Ok(Went::Nowhere);
    };
    let Some(a) = number_of(t, x) else {
        return Ok(Went::Nowhere);
    };
    let Some(b) = number_of(t, y) else {
        return Ok(Went::Nowhere);
    };
    match act_on_two(k, t, a, b) {
        Answered::Number(n) => {
            values.push(value_at(t, n))?;
            Ok(Went::Well)
        }
        Answered::Trap(kind) => Ok(Went::Wrong(kind)),
    }
}

fn convert(values: &mut Layered, t: ValType, u: ValType, k: u8) -> Result<Went, OutOfMemory>
    requires { narrow u k ≡ true }
    ensures { IfOk result (λ w.
        Does (by_class (Converts t u k) values.old.values) w values.old values.new) }
{
    let Some(x) = values.pop() else {
        return Ok(Went::Nowhere);
    };
    let Some(a) = number_of(t, x) else {
        return Ok(Went::Nowhere);
    };
    match u {
        ValType::I32 => {
            let n = convert_to_32(k, a);
            values.push(Value::I32(n))?;
            Ok(Went::Well)
        }
        ValType::I64 => {
            let n = convert_to_64(k, a);
            values.push(Value::I64(n))?;
            Ok(Went::Well)
        }
        ValType::F32 => unreachable!(),
        ValType::F64 => unreachable!(),
    }
}

/// What an opcode without immediates computes.
#[tactic(auto, unfolding(run_rules::specs::Numbers::computed))]
pub fn compute(op: u8, values: &mut Layered) -> Result<Went, OutOfMemory>
    ensures { IfOk result (λ w. Does (computed op values.old.values) w values.old values.new) }
{
    match class_at(op) {
        Class::Tests(t) => test(values, t),
        Class::Compares(t, k) => compare_two(values, t, k),
        Class::Ones(t, k) => one(values, t, k),
        Class::Twos(t, k) => two(values, t, k),
        Class::Converts(t, u, k) => convert(values, t, u, k),
        Class::Carries => Ok(Went::Foreign),
        Class::Unknown => Ok(Went::Nowhere),
    }
}
