//! What typing sees of an instruction (Core 3.3).

ghost use Rattle.std.specs.Prelude.{◌≡◌, List, slice_get, IfOk, IfSome, MatchOption};
ghost use Rattle.wasm_types.specs.declared.value.ValType.{ValType};
ghost use Rattle.valid_rules.specs.declared.types.Shape.TheVariants.{Typed, Opens};
ghost use Rattle.valid_bodies.specs.declared.types.Meaning.{Meaning};
ghost use Rattle.valid_bodies.specs.Effects.{shape_of, IsOther};
ghost use Rattle.valid_bodies.specs.Meanings.{global_as};
ghost use Rattle.valid_bodies.specs.Shapes.{as_global, as_type, global, in_memory, local, local_type, opener, plain, select_typed, shape, shape_as, there, called_through};

use crate::accesses::access_effect;
use crate::effects::{Effect, with_effect};
use crate::meanings::meaning_at;
use crate::numeric::{numeric_effect, truncation_effect};
use crate::opcodes;
use crate::types::{Context, Meaning};
use std::alloc::Global;
use valid_rules::{Opener, Shape};
use wasm_instr::{Instr, LocalRun};
use wasm_types::{FuncType, GlobalType, ValType};
use wl_base::{OutOfMemory, Seq};

/// An instruction without immediates, in a function with these results.
#[tactic(auto, unfolding(crate::specs::Shapes::plain))]
fn plain_shape(alloc: Global, results: &[ValType], op: u8) -> Result<Shape, OutOfMemory>
    ensures { IfOk result (λ shape. shape ≡ plain results.now op) }
{
    match op {
        opcodes::UNREACHABLE => Ok(Shape::Leaves(Seq::new(alloc))),
        opcodes::NOP => with_effect(alloc, Effect::Nothing),
        opcodes::ELSE => Ok(Shape::Else),
        opcodes::END => Ok(Shape::End),
        opcodes::RETURN => Ok(Shape::Leaves(Seq::from_slice(alloc, results)?)),
        opcodes::DROP => Ok(Shape::Drops),
        opcodes::SELECT => Ok(Shape::Selects),
        _ => with_effect(alloc, numeric_effect(op)),
    }
}

/// The effect of an instruction without immediates, where it has one in any function.
#[tactic(auto, unfolding(crate::specs::Shapes::plain))]
fn plain_effect(op: u8) -> Option<Effect>
    ensures { IfSome result (λ effect. (results : List ValType) → shape_of effect ≡ plain results op) }
{
    match op {
        opcodes::UNREACHABLE
        | opcodes::ELSE
        | opcodes::END
        | opcodes::RETURN
        | opcodes::DROP
        | opcodes::SELECT => None,
        opcodes::NOP => Some(Effect::Nothing),
        _ => Some(numeric_effect(op)),
    }
}

/// An instruction of a local of this type (Core 3.3.5).
fn local_effect(op: u8, kind: ValType) -> Effect
    ensures { shape_of result ≡ local op kind }
{
    match op {
        opcodes::LOCAL_GET => Effect::Gives(kind),
        opcodes::LOCAL_SET => Effect::Takes(kind),
        _ => Effect::Turns(kind, kind),
    }
}

/// An instruction of a global of this type (Core 3.3.5).
fn global_effect(op: u8, kind: GlobalType) -> Effect
    ensures { shape_of result ≡ global op kind }
{
    if op == opcodes::GLOBAL_GET {
        Effect::Gives(kind.kind)
    } else if kind.var {
        Effect::Takes(kind.kind)
    } else {
        Effect::Untyped
    }
}

/// What opens a block.
pub fn opener_of(op: u8) -> Opener
    ensures { result ≡ opener op }
{
    match op {
        opcodes::LOOP => Opener::Loop,
        opcodes::IF => Opener::If,
        _ => Opener::Block,
    }
}

/// The type of a local: the parameters come first, then the runs that the body declares.
#[tactic(auto, unfolding(crate::specs::Shapes::run_type))]
fn local_at(params: &[ValType], runs: &[LocalRun], local: u32) -> Option<ValType>
    ensures { result ≡ local_type params.now runs.now local }
{
    let at = local as usize;
    if at < params.len() {
        return Some(params[at]);
    }
    let mut left = at - params.len();
    for run in runs {
        if left < run.count as usize {
            return Some(run.kind);
        }
        left -= run.count as usize;
    }
    None
}

/// A call through a table: the slot lies on the arguments.
fn call_through(alloc: Global, kind: &FuncType) -> Result<Shape, OutOfMemory>
    ensures { IfOk result (λ shape. shape ≡ called_through kind.now) }
{
    let mut params = Seq::from_slice(alloc, kind.params.as_slice())?;
    params.push(ValType::I32)?;
    Ok(Shape::Typed(FuncType {
        params,
        results: Seq::from_slice(alloc, kind.results.as_slice())?,
    }))
}

/// An instruction of a local, where it is there.
fn local_named(params: &[ValType], runs: &[LocalRun], op: u8, index: u32) -> Effect
    ensures { shape_of result ≡ there (local op) (local_type params.now runs.now index) }
{
    match local_at(params, runs, index) {
        None => Effect::Untyped,
        Some(of) => local_effect(op, of),
    }
}

/// An instruction of this effect, where there is a memory.
fn in_memory(memory: bool, effect: Effect) -> Effect
    ensures { shape_of result ≡ in_memory memory (shape_of effect) }
{
    if memory { effect } else { Effect::Untyped }
}

/// `select` with these types (Core 3.3.4).
fn select_effect(kinds: &[ValType]) -> Effect
    ensures { shape_of result ≡ select_typed kinds.now }
{
    match kinds {
        [of] => Effect::Chooses(*of),
        _ => Effect::Untyped,
    }
}

/// What opens a block of the type that is named.
fn opened(op: u8, meaning: Meaning) -> Shape
    ensures { result ≡ as_type (Opens (opener op)) meaning }
{
    match meaning {
        Meaning::OfType(of) => Shape::Opens(opener_of(op), of),
        _ => Shape::Untyped,
    }
}

/// A call of a function of the type that is named.
fn called(meaning: Meaning) -> Shape
    ensures { result ≡ as_type Typed meaning }
{
    match meaning {
        Meaning::OfType(of) => Shape::Typed(of),
        _ => Shape::Untyped,
    }
}

/// A call through a table, of the type that is named.
fn called_indirectly(alloc: Global, meaning: Meaning) -> Result<Shape, OutOfMemory>
    ensures { IfOk result (λ shape. shape ≡ as_type called_through meaning) }
{
    match meaning {
        Meaning::OfType(of) => call_through(alloc, &of),
        _ => Ok(Shape::Untyped),
    }
}

/// An instruction of the global that is named.
fn global_named(op: u8, meaning: Meaning) -> Effect
    ensures { shape_of result ≡ as_global (global op) meaning }
{
    match meaning {
        Meaning::OfGlobal(of) => global_effect(op, of),
        _ => Effect::Untyped,
    }
}

/// An instruction of the global of this index.
fn global_at(context: &Context, op: u8, index: u32) -> Effect
    ensures { shape_of result ≡ as_global (global op) (global_as (slice_get context.now.globals index)) }
{
    match context.globals.get(index as usize) {
        None => Effect::Untyped,
        Some(of) => global_effect(op, *of),
    }
}

/// The effect of an instruction of a function of this type with these locals, where it has one whatever its index
/// names. `memory` says whether there is one.
pub fn effect_by(
    memory: bool,
    kind: &FuncType,
    locals: &[LocalRun],
    instr: &Instr,
) -> Option<Effect>
    ensures { MatchOption result (IsOther instr.now) (λ effect. (meaning : Meaning) → shape_of effect ≡ shape_as memory kind.now locals.now meaning instr.now) }
{
    match instr {
        Instr::Plain(op) => plain_effect(*op),
        Instr::Local { opcode, local } => Some(local_named(
            kind.params.as_slice(),
            locals,
            *opcode,
            *local,
        )),
        Instr::SelectTyped(kinds) => Some(select_effect(kinds.as_slice())),
        Instr::Access { opcode, align, .. } => Some(access_effect(memory, *opcode, *align)),
        Instr::MemorySize => Some(in_memory(memory, Effect::Gives(ValType::I32))),
        Instr::MemoryGrow => Some(in_memory(memory, Effect::Turns(ValType::I32, ValType::I32))),
        Instr::MemoryCopy | Instr::MemoryFill => Some(in_memory(memory, Effect::Fills)),
        Instr::I32Const(_) => Some(Effect::Gives(ValType::I32)),
        Instr::I64Const(_) => Some(Effect::Gives(ValType::I64)),
        Instr::F32Const(_) => Some(Effect::Gives(ValType::F32)),
        Instr::F64Const(_) => Some(Effect::Gives(ValType::F64)),
        Instr::Truncate(number) => Some(truncation_effect(*number)),
        Instr::Block { .. }
        | Instr::Branch { .. }
        | Instr::BranchTable { .. }
        | Instr::Call(_)
        | Instr::CallIndirect { .. }
        | Instr::GlobalAt { .. } => None,
    }
}

/// An instruction of a function of this type, whose typing hangs on more than its immediates.
fn other_shape(
    alloc: Global,
    memory: bool,
    kind: &FuncType,
    locals: &[LocalRun],
    meaning: Meaning,
    instr: &Instr,
) -> Result<Shape, OutOfMemory>
    requires { IsOther instr.now }
    ensures { IfOk result (λ found. found ≡ shape_as memory kind.now locals.now meaning instr.now) }
{
    match instr {
        Instr::Plain(op) => plain_shape(alloc, kind.results.as_slice(), *op),
        Instr::Block { opcode, .. } => Ok(opened(*opcode, meaning)),
        Instr::Branch { opcode, label } => match *opcode {
            opcodes::BR => Ok(Shape::Branches(*label)),
            _ => Ok(Shape::BranchesIf(*label)),
        },
        Instr::BranchTable { labels, last } => Ok(Shape::BranchesBy {
            labels: Seq::from_slice(alloc, labels.as_slice())?,
            last: *last,
        }),
        Instr::Call(_) => Ok(called(meaning)),
        Instr::CallIndirect { .. } => called_indirectly(alloc, meaning),
        Instr::GlobalAt { opcode, .. } => with_effect(alloc, global_named(*opcode, meaning)),
        _ => Ok(Shape::Untyped),
    }
}

/// An instruction of a function of this type with these locals, by what it names. `memory` says whether
/// there is one.
///
/// # Errors
/// Want of memory.
pub fn shape_by(
    alloc: Global,
    memory: bool,
    kind: &FuncType,
    locals: &[LocalRun],
    meaning: Meaning,
    instr: &Instr,
) -> Result<Shape, OutOfMemory>
    ensures { IfOk result (λ found. found ≡ shape_as memory kind.now locals.now meaning instr.now) }
{
    let Some(effect) = effect_by(memory, kind, locals, instr) else {
        return other_shape(alloc, memory, kind, locals, meaning, instr);
    };
    with_effect(alloc, effect)
}

/// The effect of an instruction of a function of this type with these locals, in its context, where it has one.
pub fn effect_at(
    context: &Context,
    kind: &FuncType,
    locals: &[LocalRun],
    instr: &Instr,
) -> Option<Effect>
    ensures { IfSome result (λ effect. shape_of effect ≡ shape context.now kind.now locals.now instr.now) }
{
    match instr {
        Instr::GlobalAt { opcode, global } => Some(global_at(context, *opcode, *global)),
        _ => effect_by(context.memory, kind, locals, instr),
    }
}

/// An instruction of a function of this type with these locals, in its context.
pub fn shape_at(
    alloc: Global,
    context: &Context,
    kind: &FuncType,
    locals: &[LocalRun],
    instr: &Instr,
) -> Result<Shape, OutOfMemory>
    ensures { IfOk result (λ found. found ≡ shape context.now kind.now locals.now instr.now) }
{
    let meaning = meaning_at(alloc, context, instr)?;
    shape_by(alloc, context.memory, kind, locals, meaning, instr)
}
