//! The functions of an object.
ghost use Rattle.std.specs.Prelude.{◌≡◌, ◌+◌, ◌<◌, ◌^◌, [], length, slice_get, option_copied, IfOk};
ghost use Rattle.object_file.specs.Objects.{operands_of, functions_from};
ghost use Rattle.object_file.specs.Exports.{AreLast};
ghost use Rattle.object_rules.specs.body_windows.Operands.{operands_seen};

use crate::exports::{last_exports, name_at, names_in, place_of};
use object_columns::{FunctionRef, Functions};
use object_rules::{CodeBody, Export, Mismatch, Operands, OperandsRef};
use std::alloc::Global;
use wl_base::OutOfMemory;

/// The operands of a body.
fn operands_of(windows: &Result<Operands, Mismatch>) -> OperandsRef<'_>
    ensures { operands_seen result ≡ operands_of windows.now }
{
    match windows {
        Ok(operands) => operands.as_ref(),
        Err(_) => OperandsRef {
            references: &[],
            behind: 0,
        },
    }
}

/// The body at a place.
fn body_at(bodies: &[CodeBody], at: usize) -> Option<&CodeBody>
    ensures { option_copied result ≡ slice_get bodies.now at }
{
    match bodies.get(at) {
        Some(body) => Some(body),
        None => None,
    }
}

/// How many references the bodies have.
fn references_in(bodies: &[CodeBody]) -> usize {
    let mut count: usize = 0;
    for body in bodies {
        count = count.saturating_add(operands_of(&body.windows).references.len());
    }
    count
}

/// The empty list, with room for so many functions of these bodies. `last` has the place of the last
/// export of each function.
fn room_for(
    alloc: Global,
    exports: &[Export],
    last: &[Option<usize>],
    functions: usize,
    bodies: &[CodeBody],
) -> Result<Functions, OutOfMemory>
    ensures { IfOk result (λ functions. functions ≡ []) }
{
    Functions::with_room(
        alloc,
        functions,
        references_in(bodies),
        names_in(exports, last),
    )
}

/// The defined functions, whose indexes begin at `first`: each type with its body. `last` has the
/// place of the last export of each function.
fn named_functions(
    alloc: Global,
    exports: &[Export],
    last: &[Option<usize>],
    first: usize,
    types: &[u32],
    bodies: &[CodeBody],
) -> Result<Functions, OutOfMemory>
    requires named { AreLast exports.now (first + length types.now) last.now }
    requires counted { first + length types.now < 2 ^ 64 }
    ensures { IfOk result (λ functions. functions ≡ functions_from exports.now first types.now bodies.now) }
{
    let mut functions = room_for(alloc, exports, last, types.len(), bodies)?;
    for (at, type_index) in types.iter().enumerate() {
        let Some(body) = body_at(bodies, at) else {
            return Ok(functions);
        };
        functions.push(FunctionRef {
            type_index: *type_index,
            span: body.span,
            operands: operands_of(&body.windows),
            export_name: name_at(exports, place_of(last, first + at)),
        })?;
    }
    Ok(functions)
}

/// The defined functions, whose indexes begin at `first`: each type with its body, and the name of
/// its last export. `functions` is how many there are with those that are imported.
pub fn functions_from(
    alloc: Global,
    exports: &[Export],
    first: usize,
    functions: usize,
    types: &[u32],
    bodies: &[CodeBody],
) -> Result<Functions, OutOfMemory>
    requires { functions ≡ first + length types.now }
    ensures { IfOk result (λ functions. functions ≡ functions_from exports.now first types.now bodies.now) }
{
    let last = last_exports(alloc, functions, exports)?;
    named_functions(alloc, exports, last.as_slice(), first, types, bodies)
}
