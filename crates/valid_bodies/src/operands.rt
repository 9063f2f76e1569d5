//! Operands that are taken and put (Core, appendix A.3). Below those of a block that is unreachable
//! there are any, so an empty stack gives what is asked for. Those of the blocks around it stay.

ghost use Rattle.std.specs.Prelude.{◌≡◌, ◌+◌, ◌-◌, ◌<◌, [], ◌∷◌, ◌++◌, reverse, IfOk, OnOk, Some, None, MatchOption, is_some, option_and_then, true};
ghost use Rattle.wasm_types.specs.declared.value.ValType.TheVariants.{I32 as AnI32};
ghost use Rattle.valid_rules.specs.declared.types.Operand.TheVariants.{Known};
ghost use Rattle.valid_rules.specs.Reading.{same_type, take_one, take_all, put, take_any, joined, selected, empties};
ghost use Rattle.valid_bodies.specs.Effects.{typed_on};
ghost use Rattle.valid_bodies.specs.Steps.{asked};
ghost use Rattle.valid_bodies.specs.Went.{Went};

use crate::layer::Operands;
use valid_rules::{Opener, Operand};
use wasm_types::ValType;
use wl_base::OutOfMemory;

/// Whether two types of values are the same.
fn same(a: ValType, b: ValType) -> bool
    ensures { result ≡ same_type a b }
{
    match (a, b) {
        (ValType::I32, ValType::I32) => true,
        (ValType::I64, ValType::I64) => true,
        (ValType::F32, ValType::F32) => true,
        (ValType::F64, ValType::F64) => true,
        _ => false,
    }
}

/// Takes an operand of this type; answers whether there was one.
pub fn takes_one(operands: &mut Operands, unreachable: bool, kind: ValType) -> bool
    ensures own { Went (take_one unreachable kind operands.old.own) result operands.new.own }
    ensures below { operands.new.below ≡ operands.old.below }
{
    match operands.pop() {
        None => unreachable,
        Some(Operand::Unknown) => true,
        Some(Operand::Known(found)) => same(found, kind),
    }
}

/// Takes operands of these types, the last from the top; answers whether there were.
pub fn takes_all(operands: &mut Operands, unreachable: bool, kinds: &[ValType]) -> bool
    ensures own { Went (take_all unreachable (reverse kinds.now) operands.old.own) result operands.new.own }
    ensures below { operands.new.below ≡ operands.old.below }
{
    let mut left = kinds.len();
    while left > 0 {
        left -= 1;
        if !takes_one(operands, unreachable, kinds[left]) {
            return false;
        }
    }
    true
}

/// Puts operands of these types, the last on top.
pub fn puts(operands: &mut Operands, kinds: &[ValType]) -> Result<(), OutOfMemory>
    ensures own { OnOk result (operands.new.own ≡ put kinds.now operands.old.own) }
    ensures below { operands.new.below ≡ operands.old.below }
{
    for kind in kinds {
        operands.push(Operand::Known(*kind))?;
    }
    Ok(())
}

/// Puts an operand of this type: that goes in any block.
pub fn gives(operands: &mut Operands, kind: ValType) -> Result<bool, OutOfMemory>
    ensures own { IfOk result (λ went. Went (Some (Known kind ∷ operands.old.own)) went operands.new.own) }
    ensures below { operands.new.below ≡ operands.old.below }
{
    operands.push(Operand::Known(kind))?;
    Ok(true)
}

/// Takes an operand of any type, where there is one.
pub fn takes_any(operands: &mut Operands, unreachable: bool) -> Option<Operand>
    ensures own { MatchOption result (take_any unreachable operands.old.own ≡ None) (λ operand. take_any unreachable operands.old.own ≡ Some (operand, operands.new.own)) }
    ensures below { operands.new.below ≡ operands.old.below }
{
    match operands.pop() {
        None => if unreachable {
            Some(Operand::Unknown)
        } else {
            None
        },
        Some(operand) => Some(operand),
    }
}

/// What is known of two operands that have one type.
pub fn join(a: Operand, b: Operand) -> Option<Operand>
    ensures { result ≡ joined a b }
{
    match (a, b) {
        (Operand::Unknown, b) => Some(b),
        (a, Operand::Unknown) => Some(a),
        (Operand::Known(s), Operand::Known(t)) => if same(s, t) { Some(a) } else { None },
    }
}

/// Whether operands of these types could be taken, the last from the top.
pub fn has_all(operands: &Operands, unreachable: bool, kinds: &[ValType]) -> bool
    ensures { result ≡ is_some (take_all unreachable (reverse kinds.now) operands.now.own) }
{
    let height = operands.len();
    let mut left = kinds.len();
    let mut at = 0;
    while left > 0 {
        left -= 1;
        match operands.at(at) {
            None => {
                if !unreachable {
                    return false;
                }
            }
            Some(Operand::Unknown) => at += 1,
            Some(Operand::Known(found)) => {
                if !same(found, kinds[left]) {
                    return false;
                }
                at += 1;
            }
        }
    }
    true
}

/// Takes what opening a block with these parameters asks for; answers whether there was.
pub fn takes_asked(
    operands: &mut Operands,
    unreachable: bool,
    opener: Opener,
    params: &[ValType],
) -> bool
    ensures own { Went (take_all unreachable (reverse (asked opener params.now)) operands.old.own) result operands.new.own }
    ensures below { operands.new.below ≡ operands.old.below }
{
    if opener == Opener::If && !takes_one(operands, unreachable, ValType::I32) {
        return false;
    }
    takes_all(operands, unreachable, params)
}

/// Takes operands of these types and puts operands of those.
pub fn moves(
    operands: &mut Operands,
    unreachable: bool,
    takes: &[ValType],
    gives: &[ValType],
) -> Result<bool, OutOfMemory>
    ensures own { IfOk result (λ went. Went (typed_on unreachable operands.old.own (record { params = takes.now; results = gives.now })) went operands.new.own) }
    ensures below { operands.new.below ≡ operands.old.below }
{
    if !takes_all(operands, unreachable, takes) {
        return Ok(false);
    }
    puts(operands, gives)?;
    Ok(true)
}

/// The same, with an i32 on what is taken.
pub fn moves_under(
    operands: &mut Operands,
    unreachable: bool,
    takes: &[ValType],
    gives: &[ValType],
) -> Result<bool, OutOfMemory>
    ensures own { IfOk result (λ went. Went (typed_on unreachable operands.old.own (record { params = takes.now ++ AnI32 ∷ []; results = gives.now })) went operands.new.own) }
    ensures below { operands.new.below ≡ operands.old.below }
{
    if !takes_one(operands, unreachable, ValType::I32) {
        return Ok(false);
    }
    let went = moves(operands, unreachable, takes, gives)?;
    Ok(went)
}

/// `select` without types: an i32, and two operands of one type.
pub fn chooses(operands: &mut Operands, unreachable: bool) -> Result<bool, OutOfMemory>
    ensures own { IfOk result (λ went. Went (option_and_then (selected unreachable) (take_one unreachable AnI32 operands.old.own)) went operands.new.own) }
    ensures below { operands.new.below ≡ operands.old.below }
{
    if !takes_one(operands, unreachable, ValType::I32) {
        return Ok(false);
    }
    let Some(a) = takes_any(operands, unreachable) else {
        return Ok(false)
    };
    let Some(b) = takes_any(operands, unreachable) else {
        return Ok(false)
    };
    let Some(both) = join(a, b) else {
        return Ok(false)
    };
    operands.push(both)?;
    Ok(true)
}

/// Whether operands of these types are all that there is; then they are taken.
pub fn is_all(operands: &mut Operands, unreachable: bool, kinds: &[ValType]) -> bool
    ensures own { result ≡ empties (take_all unreachable (reverse kinds.now) operands.old.own) }
    ensures taken { result ≡ true → operands.new.own ≡ [] }
    ensures below { operands.new.below ≡ operands.old.below }
{
    takes_all(operands, unreachable, kinds) && operands.len() == 0
}
