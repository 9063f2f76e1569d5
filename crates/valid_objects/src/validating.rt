//! An object is judged: first its globals, then body by body.
ghost use Rattle.std.specs.Prelude.{◌≡◌, ◌<◌, ◌+◌, ◌^◌, [], length, IfOk, IfSome};
ghost use Rattle.std.specs.List.{list_all};
ghost use Rattle.object_file.specs.ObjectOf.{IsObject};
ghost use Rattle.object_file.specs.Spaces.{function_imports};
ghost use Rattle.object_file.specs.Sound.{Sound, function_count};
ghost use Rattle.wasm_valid.specs.Rules.{has_type};
ghost use Rattle.wasm_valid.specs.Computed.{Tells};
ghost use Rattle.valid_objects.specs.Objects.{first_refused, object_fault};
ghost use Rattle.valid_objects.specs.Judged.{JudgesObject};
ghost use Rattle.valid_objects.specs.Merging.{AreNames};

use crate::bodies::is_accepted;
use crate::names::{Names, names_of};
use object_file::{GlobalDef, Object};
use std::alloc::Global;
use wasm_types::{ConstExpr, ValType};
use wasm_valid::ValidError;
use wl_base::{InvalidAt, OutOfMemory};

/// Whether a global's first value has its type. None reads another global.
fn global_stands(global: &GlobalDef) -> bool
    ensures { result ≡ has_type [] global.now.kind.kind global.now.value }
{
    match (global.value, global.kind.kind) {
        (ConstExpr::I32(_), ValType::I32) => true,
        (ConstExpr::I64(_), ValType::I64) => true,
        _ => false,
    }
}

/// Whether the first value of each global has its type.
fn globals_stand(globals: &[GlobalDef]) -> bool
    ensures { result ≡ list_all (λ g. has_type [] g.kind.kind g.value) globals.now }
{
    globals.iter().all(|global| global_stands(global))
}

/// The number of the first function whose body has no typing, where the first one that is defined has
/// this one.
fn first_refused(
    alloc: Global,
    o: &Object,
    names: &Names,
    bytes: &[u8],
    first: usize,
) -> Result<Option<usize>, OutOfMemory>
    requires named { AreNames names.now o.now }
    requires sound { Sound (length bytes.now) o.now }
    requires few { first + length o.now.functions < 2 ^ 32 }
    ensures found { IfOk result (λ found. found ≡ first_refused o.now bytes.now first o.now.functions) }
    ensures few { IfOk result (λ found. IfSome found (λ n. n < 2 ^ 32)) }
{
    for at in 0..o.functions.len() {
        let Some(function) = o.functions.get(at) else {
            unreachable!()
        };
        let accepted = is_accepted(alloc, o, names, function, bytes)?;
        if !accepted {
            return Ok(Some(first + at));
        }
    }
    Ok(None)
}

/// How many functions are imported.
#[tactic(auto, using(crate::proofs::Named::count_is))]
fn imported_count(o: &Object, names: &Names) -> usize
    requires { AreNames names.now o.now }
    ensures { result ≡ length (function_imports o.now) }
{
    names.functions.len() - o.functions.len()
}

/// Judges a sound object by its globals, then by the first body that has no typing.
#[tactic(auto, unfolding(crate::specs::Objects::object_fault))]
fn judge(alloc: Global, o: &Object, bytes: &[u8]) -> Result<(), ValidError>
    requires sound { Sound (length bytes.now) o.now }
    requires few { function_count o.now < 2 ^ 32 }
    ensures { Tells result (object_fault o.now bytes.now) }
{
    if !globals_stand(o.globals.as_slice()) {
        return Err(ValidError::Invalid(InvalidAt::Module));
    }
    let names = names_of(alloc, o)?;
    match first_refused(alloc, o, &names, bytes, imported_count(o, &names))? {
        None => Ok(()),
        Some(n) => Err(ValidError::Invalid(InvalidAt::Body(n as u32))),
    }
}

/// Whether an object is valid: each body has a typing (Core 3.3) in a context with one memory and one
/// table of funcref, where a reference has the type of what its symbol names (Linking.md, "Symbol
/// Table Subsection" and "Relocation Sections"), and each defined global's first value has its type.
///
/// The object was read from these bytes, and has fewer than 2^32 functions with those that are
/// imported. Each body is read once.
///
/// # Errors
/// `Invalid` with `Module` exactly where a global's first value hasn't its type. Where all have it,
/// `Invalid` with the number of the first function whose body has no typing, imported functions first,
/// exactly where there is one. Want of memory.
#[tactic(auto, using(crate::proofs::Judging::computed_is_judged))]
pub fn validate_object(alloc: Global, o: &Object, bytes: &[u8]) -> Result<(), ValidError>
    requires read { IsObject o.now.input bytes.now o.now }
    requires few { function_count o.now < 2 ^ 32 }
    // Against typing as a relation.
    ensures judges { JudgesObject result o.now bytes.now }
    // The same, as it is computed.
    ensures computed { Tells result (object_fault o.now bytes.now) }
{
    object_file::read_objects_are_sound();
    judge(alloc, o, bytes)
}
