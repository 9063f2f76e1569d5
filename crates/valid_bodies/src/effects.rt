//! What the common instructions take and give: numbers of known types, few enough to stand in the answer. So they are
//! read without a list of types.

ghost use Rattle.std.specs.Prelude.{◌≡◌, IfOk};
ghost use Rattle.valid_bodies.specs.Effects.{shape_of, shaped};
ghost use Rattle.valid_bodies.specs.Numeric.{to};
ghost use Rattle.valid_bodies.specs.Went.{Went};

use crate::layer::Operands;
use crate::operands::{gives, takes_one};
use std::alloc::Global;
use valid_rules::Shape;
use wasm_types::{FuncType, ValType};
use wl_base::{OutOfMemory, Seq};

/// What an instruction takes and gives.
#[derive(Clone, Copy)]
pub enum Effect {
    /// It has no typing.
    Untyped,
    /// It takes and gives nothing.
    Nothing,
    /// It gives a value of this type.
    Gives(ValType),
    /// It takes a value of this type.
    Takes(ValType),
    /// It takes a value of the first type and gives one of the second.
    Turns(ValType, ValType),
    /// It takes two values of the first type and gives one of the second.
    Joins(ValType, ValType),
    /// It takes an address and a value of this type.
    Stores(ValType),
    /// It takes two values of this type and an i32, and gives one of this type.
    Chooses(ValType),
    /// It takes three i32.
    Fills,
}

/// An instruction that takes these and gives those.
fn leads(alloc: Global, params: &[ValType], results: &[ValType]) -> Result<Shape, OutOfMemory>
    ensures { IfOk result (λ shape. shape ≡ to params.now results.now) }
{
    Ok(Shape::Typed(FuncType {
        params: Seq::from_slice(alloc, params)?,
        results: Seq::from_slice(alloc, results)?,
    }))
}

/// The shape of an instruction of this effect.
pub fn with_effect(alloc: Global, effect: Effect) -> Result<Shape, OutOfMemory>
    ensures { IfOk result (λ shape. shape ≡ shape_of effect) }
{
    match effect {
        Effect::Untyped => Ok(Shape::Untyped),
        Effect::Nothing => leads(alloc, &[], &[]),
        Effect::Gives(of) => leads(alloc, &[], &[of]),
        Effect::Takes(of) => leads(alloc, &[of], &[]),
        Effect::Turns(from, to) => leads(alloc, &[from], &[to]),
        Effect::Joins(from, to) => leads(alloc, &[from, from], &[to]),
        Effect::Stores(of) => leads(alloc, &[ValType::I32, of], &[]),
        Effect::Chooses(of) => leads(alloc, &[of, of, ValType::I32], &[of]),
        Effect::Fills => leads(alloc, &[ValType::I32, ValType::I32, ValType::I32], &[]),
    }
}

/// An instruction of this effect on the operands of the innermost block: whether it found what it takes.
#[inline(always)]
pub fn applies(
    operands: &mut Operands,
    unreachable: bool,
    effect: Effect,
) -> Result<bool, OutOfMemory>
    ensures own { IfOk result (λ went. Went (shaped unreachable operands.old.own (shape_of effect)) went operands.new.own) }
    ensures below { operands.new.below ≡ operands.old.below }
{
    match effect {
        Effect::Untyped => Ok(false),
        Effect::Nothing => Ok(true),
        Effect::Gives(of) => gives(operands, of),
        Effect::Takes(of) => Ok(takes_one(operands, unreachable, of)),
        Effect::Turns(from, to) => {
            if !takes_one(operands, unreachable, from) {
                return Ok(false);
            }
            gives(operands, to)
        }
        Effect::Joins(from, to) => {
            if !takes_one(operands, unreachable, from) || !takes_one(operands, unreachable, from) {
                return Ok(false);
            }
            gives(operands, to)
        }
        Effect::Stores(of) => Ok(
            takes_one(operands, unreachable, of) && takes_one(operands, unreachable, ValType::I32),
        ),
        Effect::Chooses(of) => {
            if !takes_one(operands, unreachable, ValType::I32)
                || !takes_one(operands, unreachable, of)
                || !takes_one(operands, unreachable, of)
            {
                return Ok(false);
            }
            gives(operands, of)
        }
        Effect::Fills => Ok(
            takes_one(operands, unreachable, ValType::I32)
                && takes_one(operands, unreachable, ValType::I32)
                && takes_one(operands, unreachable, ValType::I32),
        ),
    }
}
