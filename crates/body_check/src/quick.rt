//! Instructions that are quick to type: those that do nothing to blocks, and whose effect is known by their opcode, the
//! locals and the globals. They are most of a body, and none of them is ever made as a value.
ghost use Rattle.std.specs.Prelude.{◌≡◌, List, ℕ, IfOk, IfSome, MatchOption, Ok};
ghost use Rattle.wasm_instr.specs.wasm_grammar.Reading.{byte_at};
ghost use Rattle.wasm_instr.specs.declared.class.Class.TheVariants as classes;
ghost use Rattle.wasm_instr.specs.Classes.{class_of};
ghost use Rattle.valid_bodies.specs.Effects.{shape_of};
ghost use Rattle.valid_bodies.specs.Shapes.{local};
ghost use Rattle.body_check.specs.Table.{IsTable};
ghost use Rattle.body_check.specs.Passing.{Does, Passes, IsUnfit};

use crate::opcodes::{is_access, is_constant, is_global, is_local, is_long_constant, is_numeric};
use crate::table::{Table, kind_at};
use valid_bodies::{
    Blocks, Context, Effect, access_effect, effect_at, numeric_effect, reads_effect,
};
use wasm_grammar::{byte_at, s32_at, s64_at, u32_at};
use wasm_instr::{Instr, LocalRun};
use wasm_types::{FuncType, ValType, plain_val_type_at};
use wl_base::OutOfMemory;

/// The effect of an instruction of a local of this type.
#[inline(always)]
fn local_effect(opcode: u8, kind: ValType) -> Effect
    ensures { shape_of result ≡ local opcode kind }
{
    match opcode {
        0x20 => Effect::Gives(kind),
        0x21 => Effect::Takes(kind),
        _ => Effect::Turns(kind, kind),
    }
}

/// The effect of an instruction of a local, behind its opcode, and the bytes after it, where the table has its type.
#[inline(always)]
#[tactic(auto, using(crate::proofs::Doing::does_tabled))]
fn local_next<'a>(
    _context: &Context,
    _kind: &FuncType,
    _locals: &[LocalRun],
    table: &Table,
    end: usize,
    opcode: u8,
    behind: &'a [u8],
) -> Option<(Effect, &'a [u8])>
    requires class { class_of opcode ≡ classes.Local }
    requires table { IsTable _kind.now.params _locals.now table.now }
    ensures { (bytes : List ℕ) → byte_at end bytes ≡ Ok (opcode, behind.now) → IfSome result (λ x. Does _context.now _kind.now _locals.now end bytes (shape_of x.0) x.1.now) }
{
    let Ok((local, rest)) = u32_at(end, behind) else {
        return None
    };
    match kind_at(table, local as usize) {
        None => None,
        Some(of) => Some((local_effect(opcode, of), rest)),
    }
}

/// The effect of an instruction of a global, behind its opcode, and the bytes after it.
#[inline(always)]
#[tactic(auto, using(crate::proofs::Doing::does_global))]
fn global_next<'a>(
    context: &Context,
    kind: &FuncType,
    locals: &[LocalRun],
    end: usize,
    opcode: u8,
    behind: &'a [u8],
) -> Option<(Effect, &'a [u8])>
    requires { class_of opcode ≡ classes.GlobalAt }
    ensures { (bytes : List ℕ) → byte_at end bytes ≡ Ok (opcode, behind.now) → IfSome result (λ x. Does context.now kind.now locals.now end bytes (shape_of x.0) x.1.now) }
{
    let Ok((global, rest)) = u32_at(end, behind) else {
        return None
    };
    match effect_at(context, kind, locals, &Instr::GlobalAt { opcode, global }) {
        None => None,
        Some(effect) => Some((effect, rest)),
    }
}

/// The effect of a load or a store, behind its opcode, and the bytes after it.
#[inline(always)]
#[tactic(auto, using(crate::proofs::Doing::does_access))]
fn access_next<'a>(
    context: &Context,
    _kind: &FuncType,
    _locals: &[LocalRun],
    end: usize,
    opcode: u8,
    behind: &'a [u8],
) -> Option<(Effect, &'a [u8])>
    requires { class_of opcode ≡ classes.Access }
    ensures { (bytes : List ℕ) → byte_at end bytes ≡ Ok (opcode, behind.now) → IfSome result (λ x. Does context.now _kind.now _locals.now end bytes (shape_of x.0) x.1.now) }
{
    let Ok((align, mid)) = u32_at(end, behind) else {
        return None
    };
    let Ok((_, rest)) = u32_at(end, mid) else {
        return None
    };
    Some((access_effect(context.memory, opcode, align), rest))
}

/// The effect of a `select` of one type, behind its opcode, and the bytes after it.
#[tactic(auto, using(crate::proofs::Doing::does_select))]
fn select_next<'a>(
    _context: &Context,
    _kind: &FuncType,
    _locals: &[LocalRun],
    end: usize,
    opcode: u8,
    behind: &'a [u8],
) -> Option<(Effect, &'a [u8])>
    requires { opcode ≡ 0x1c }
    ensures { (bytes : List ℕ) → byte_at end bytes ≡ Ok (opcode, behind.now) → IfSome result (λ x. Does _context.now _kind.now _locals.now end bytes (shape_of x.0) x.1.now) }
{
    let Ok((count, mid)) = u32_at(end, behind) else {
        return None
    };
    if count != 1 {
        return None;
    }
    match plain_val_type_at(end, mid) {
        Err(_) => None,
        Ok((of, rest)) => Some((Effect::Chooses(of), rest)),
    }
}

/// The effect of the instruction at the front, and the bytes after it, where it is quick to tell.
#[inline(always)]
#[tactic(auto, using(crate::proofs::Doing::does_numeric, crate::proofs::Doing::does_constant, crate::proofs::Doing::does_long_constant))]
fn effect_next<'a>(
    context: &Context,
    kind: &FuncType,
    locals: &[LocalRun],
    table: &Table,
    end: usize,
    bytes: &'a [u8],
) -> Option<(Effect, &'a [u8])>
    requires { IsTable kind.now.params locals.now table.now }
    ensures { IfSome result (λ x. Does context.now kind.now locals.now end bytes.now (shape_of x.0) x.1.now) }
{
    let Ok((opcode, behind)) = byte_at(end, bytes) else {
        return None
    };
    if is_local(opcode) {
        return local_next(context, kind, locals, table, end, opcode, behind);
    }
    if is_numeric(opcode) {
        return Some((numeric_effect(opcode), behind));
    }
    if is_access(opcode) {
        return access_next(context, kind, locals, end, opcode, behind);
    }
    if is_constant(opcode) {
        let Ok((_, rest)) = s32_at(end, behind) else {
            return None
        };
        return Some((Effect::Gives(ValType::I32), rest));
    }
    if is_global(opcode) {
        return global_next(context, kind, locals, end, opcode, behind);
    }
    if is_long_constant(opcode) {
        let Ok((_, rest)) = s64_at(end, behind) else {
            return None
        };
        return Some((Effect::Gives(ValType::I64), rest));
    }
    if opcode == 0x1c {
        return select_next(context, kind, locals, end, opcode, behind);
    }
    None
}

/// Types what is quick to type at the front of the code, in the innermost block: the bytes from the first instruction
/// on that isn't; none where one has no typing.
#[tactic(auto, using(crate::proofs::Doing::passes_none, crate::proofs::Doing::passes_on, crate::proofs::Doing::unfit_here))]
pub fn types_quickly<'a>(
    context: &Context,
    kind: &FuncType,
    locals: &[LocalRun],
    table: &Table,
    blocks: &mut Blocks,
    end: usize,
    bytes: &'a [u8],
) -> Result<Option<&'a [u8]>, OutOfMemory>
    requires { IsTable kind.now.params locals.now table.now }
    ensures { IfOk result (λ found. MatchOption found (IsUnfit context.now kind.now locals.now end blocks.old bytes.now)
        (λ rest. Passes context.now kind.now locals.now end blocks.old bytes.now blocks.new rest.now)) }
{
    let mut rest = bytes;
    while let Some((effect, after)) = effect_next(context, kind, locals, table, end, rest) {
        if !reads_effect(blocks, effect)? {
            return Ok(None);
        }
        rest = after;
    }
    Ok(Some(rest))
}
