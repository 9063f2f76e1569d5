//! Whether the body of an object's function has a typing.
ghost use Rattle.std.specs.Prelude.{◌≡◌, ◌≤◌, ◌+◌, ◌^◌, length, IfOk};
ghost use Rattle.object_file.specs.body_windows.Operands.{StandIn, operands_seen};
ghost use Rattle.object_file.specs.object_columns.Seen.{function_seen};
ghost use Rattle.wasm_instr.specs.Bodies.{body_at};
ghost use Rattle.valid_bodies.specs.Steps.{step_on};
ghost use Rattle.valid_bodies.specs.Went.{Went, accepts};
ghost use Rattle.valid_objects.specs.Objects.{accepted, body_bytes};
ghost use Rattle.valid_objects.specs.Merging.{AreNames, merged, merged_shape};

use crate::meanings::meaning_by;
use crate::names::{Names, written_type};
use crate::references::{left_at, operand_in};
use object_file::{FunctionRef, Object, Reference};
use std::alloc::Global;
use valid_bodies::{Blocks, effect_by, reads, reads_effect, shape_by};
use valid_rules::Shape;
use wasm_instr::{Body, BodyFault, LocalRun, Placed, read_body};
use wasm_types::FuncType;
use wl_base::{OutOfMemory, Span};

/// What typing sees of an instruction; these references are left there.
fn shape_at(
    alloc: Global,
    o: &Object,
    names: &Names,
    kind: &FuncType,
    locals: &[LocalRun],
    left: &[Reference],
    placed: &Placed,
) -> Result<Shape, OutOfMemory>
    requires { AreNames names.now o.now }
    ensures { IfOk result (λ shape. shape ≡ merged_shape o.now kind.now locals.now left.now placed.now) }
{
    let operand = operand_in(left, placed);
    let meaning = meaning_by(alloc, o, names, operand, &placed.instr)?;
    shape_by(alloc, true, kind, locals, meaning, &placed.instr)
}

/// One instruction, where these references are left: whether it has a typing in the innermost block. Its shape is made
/// only where its effect isn't known without what it names.
fn reads_one(
    alloc: Global,
    o: &Object,
    names: &Names,
    kind: &FuncType,
    locals: &[LocalRun],
    left: &[Reference],
    blocks: &mut Blocks,
    placed: &Placed,
) -> Result<bool, OutOfMemory>
    requires { AreNames names.now o.now }
    ensures { IfOk result (λ went. Went (step_on blocks.old (merged_shape o.now kind.now locals.now left.now placed.now)) went blocks.new) }
{
    match effect_by(true, kind, locals, &placed.instr) {
        Some(effect) => reads_effect(blocks, effect),
        None => {
            let shape = shape_at(alloc, o, names, kind, locals, left, placed)?;
            reads(blocks, &shape)
        }
    }
}

/// Whether the reading of a body ends well, beside its references.
fn reads_body(
    alloc: Global,
    o: &Object,
    names: &Names,
    kind: &FuncType,
    references: &[Reference],
    body: &Body,
) -> Result<bool, OutOfMemory>
    requires { AreNames names.now o.now }
    ensures { IfOk result (λ so. so ≡ accepts kind.now.results (merged o.now kind.now body.now.locals references.now body.now.code)) }
{
    let locals = body.locals.as_slice();
    let mut blocks = Blocks::new(alloc);
    blocks.begin(kind.results.as_slice())?;
    let mut left = references;
    for placed in body.code.as_slice() {
        left = left_at(left, placed);
        let went = reads_one(alloc, o, names, kind, locals, left, &mut blocks, placed)?;
        if !went {
            return Ok(false);
        }
    }
    Ok(!blocks.is_open())
}

/// The bytes of a body.
fn body_bytes(bytes: &[u8], span: Span) -> &[u8]
    requires { span.start + span.len ≤ length bytes.now }
    ensures { result.now ≡ body_bytes bytes.now span }
{
    &bytes[span.start as usize..][..span.len as usize]
}

/// Whether the body of a function has a typing: it is read again, and its reading ends well.
pub fn is_accepted(
    alloc: Global,
    o: &Object,
    names: &Names,
    function: FunctionRef<'_>,
    bytes: &[u8],
) -> Result<bool, OutOfMemory>
    requires named { AreNames names.now o.now }
    requires short { length bytes.now ≤ 2 ^ 30 }
    requires lies { function.span.start + function.span.len ≤ length bytes.now }
    requires stand { StandIn 0 function.span.len (operands_seen function.operands) }
    ensures { IfOk result (λ so. so ≡ accepted o.now (function_seen function.entry) (body_at (body_bytes bytes.now function.entry.span))) }
{
    let body = match read_body(alloc, body_bytes(bytes, function.span)) {
        Ok(body) => body,
        Err(BodyFault::OutOfMemory) => return Err(OutOfMemory),
        Err(_) => return Ok(false),
    };
    let kind = written_type(alloc, o, function.type_index)?;
    reads_body(alloc, o, names, &kind, function.operands.references, &body)
}
