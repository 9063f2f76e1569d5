//! A module is judged: first the rules outside the bodies, then body by body, by one worker or several.
ghost use Rattle.std.specs.Prelude.{◌≡◌, ◌+◌, ◌<◌, ◌^◌, true, Err, IfOk, IfErr, length, map};
ghost use Rattle.valid_bodies.specs.First.{IsFirst};
ghost use Rattle.wasm_valid.specs.Rules.{stands};
ghost use Rattle.wasm_valid.specs.Spaces.{functions_of, spaces_of, context_of, context_with};
ghost use Rattle.wasm_valid.specs.Valid.{FailsOutside, Judges};
ghost use Rattle.wasm_valid.specs.Computed.{Tells, module_fault};

use crate::fault::ValidError;
use crate::rules::stands;
use crate::spaces::{Spaces, spaces_in};
use std::alloc::Global;
use std::thread::Threads;
use valid_bodies::{Context, first_untyped, first_untyped_by};
use wasm_module::Module;
use wasm_types::{FuncType, TableType};
use wl_base::{InvalidAt, OutOfMemory, Seq};
use wl_fan::Workers;

/// The same types once more.
fn copies(alloc: Global, types: &[FuncType]) -> Result<Seq<FuncType>, OutOfMemory>
    ensures { IfOk result (λ found. found ≡ types.now) }
{
    let mut found = Seq::new(alloc);
    for kind in types {
        found.push(FuncType {
            params: Seq::from_slice(alloc, kind.params.as_slice())?,
            results: Seq::from_slice(alloc, kind.results.as_slice())?,
        })?;
    }
    Ok(found)
}

/// Of each table whether it is of funcref.
fn kinds(alloc: Global, tables: &[TableType]) -> Result<Seq<bool>, OutOfMemory>
    ensures { IfOk result (λ found. found ≡ map (λ t. t.funcref) tables.now) }
{
    let mut found = Seq::new(alloc);
    for table in tables {
        found.push(table.funcref)?;
    }
    Ok(found)
}

/// What a body of the module may name (Core 3.1.1).
fn context(alloc: Global, s: &Spaces, m: &Module) -> Result<Context, OutOfMemory>
    ensures { IfOk result (λ c. c ≡ context_with s.now m.now) }
{
    Ok(Context {
        types: copies(alloc, m.types.as_slice())?,
        functions: Seq::from_slice(alloc, s.functions.as_slice())?,
        tables: kinds(alloc, s.tables.as_slice())?,
        memory: s.memories.len() > 0,
        globals: Seq::from_slice(alloc, s.globals.as_slice())?,
    })
}

/// What a body of the module may name, where the rules outside the bodies hold. The bodies aren't looked at.
///
/// # Errors
/// `Invalid` with `Module` where one of these rules fails. Want of memory.
pub fn context_in(alloc: Global, m: &Module) -> Result<Context, ValidError>
    ensures ok { IfOk result (λ c. (stands (spaces_of m.now) m.now ≡ true) × (c ≡ context_of m.now)) }
    ensures err { IfErr result (λ e. Judges (Err e) m.now) }
    ensures outside { IfErr result (λ e. FailsOutside e m.now) }
{
    let s = spaces_in(alloc, m)?;
    if !stands(alloc, &s, m)? {
        return Err(ValidError::Invalid(InvalidAt::Module));
    }
    Ok(context(alloc, &s, m)?)
}

/// The verdict where all rules outside the bodies hold, by the first body that has no typing.
fn verdict(context: &Context, m: &Module, found: Option<usize>) -> Result<(), ValidError>
    requires few { length (functions_of m.now) < 2 ^ 32 }
    requires bodies { length m.now.bodies ≡ length m.now.functions }
    requires stands { stands (spaces_of m.now) m.now ≡ true }
    requires context { context.now ≡ context_of m.now }
    requires first { IsFirst (context_of m.now) m.now.functions m.now.bodies found }
    ensures { Judges result m.now }
{
    match found {
        None => Ok(()),
        Some(k) => {
            let imported = context.functions.len() - m.functions.len();
            Err(ValidError::Invalid(InvalidAt::Body((imported + k) as u32)))
        }
    }
}

/// Judges a module, body by body.
fn judge(alloc: Global, m: &Module) -> Result<(), ValidError>
    requires bodies { length m.now.bodies ≡ length m.now.functions }
    requires few { length (functions_of m.now) < 2 ^ 32 }
    ensures { Judges result m.now }
{
    let c = context_in(alloc, m)?;
    let found = first_untyped(alloc, &c, m.functions.as_slice(), m.bodies.as_slice())?;
    verdict(&c, m, found)
}

/// Judges a module, its bodies by several workers.
fn judge_by<R: Threads + Sync>(
    rt: &R,
    alloc: Global,
    m: &Module,
    workers: Workers,
) -> Result<(), ValidError>
    requires bodies { length m.now.bodies ≡ length m.now.functions }
    requires few { length (functions_of m.now) < 2 ^ 32 }
    ensures { Judges result m.now }
{
    let c = context_in(alloc, m)?;
    let functions = m.functions.as_slice();
    let found = first_untyped_by(rt, alloc, &c, functions, m.bodies.as_slice(), workers)?;
    verdict(&c, m, found)
}

/// Whether a module is valid (Core 3): all rules outside its bodies hold, and each body has a typing.
///
/// It has as many bodies as functions that are defined, as the binary format asks (Core 5.5.16), and
/// fewer than 2^32 functions with those that are imported. Each body is read once.
///
/// # Errors
/// `Invalid` with `Module` exactly where a rule outside the bodies fails. Where they all hold, `Invalid`
/// with the number of the first function whose body has no typing, exactly where there is one. Want of
/// memory.
#[tactic(auto, using(crate::proofs::Computed::judged_is_computed))]
pub fn validate(alloc: Global, m: &Module) -> Result<(), ValidError>
    requires bodies { length m.now.bodies ≡ length m.now.functions }
    requires few { length (functions_of m.now) < 2 ^ 32 }
    // Against typing as a relation.
    ensures judges { Judges result m.now }
    // The same, as it is computed.
    ensures computed { Tells result (module_fault m.now) }
{
    judge(alloc, m)
}

/// As `validate`, with the bodies read by several workers. The answer is the same however many they are; with
/// one worker no thread is started.
///
/// # Errors
/// Those of `validate`.
#[tactic(auto, using(crate::proofs::Computed::judged_is_computed))]
pub fn validate_by<R: Threads + Sync>(
    rt: &R,
    alloc: Global,
    m: &Module,
    workers: Workers,
) -> Result<(), ValidError>
    requires bodies { length m.now.bodies ≡ length m.now.functions }
    requires few { length (functions_of m.now) < 2 ^ 32 }
    ensures judges { Judges result m.now }
    ensures computed { Tells result (module_fault m.now) }
{
    judge_by(rt, alloc, m, workers)
}
