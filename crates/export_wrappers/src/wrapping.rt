//! Wrapping the exports of a module.
ghost use Rattle.std.specs.Prelude.{◌≡◌, ◌++◌, ◌+◌, Ok, IfOk, map};
ghost use Rattle.wasm_module.specs.declared.structure.Module.{Module};
ghost use Rattle.wasm_module.specs.ModuleReading.{module_of};
ghost use Rattle.export_wrappers.specs.declared.wrapper.Wrapper.{Wrapper};
ghost use Rattle.export_wrappers.specs.Wrapped.{wrapped_by};
ghost use Rattle.export_wrappers.specs.Cuts.{seen};
ghost use Rattle.export_wrappers.specs.Written.{IsCut};
ghost use Rattle.export_wrappers.specs.Answer.{WrapsAny, Shortens, Wraps};

use crate::cutting::{Cuts, cut_at};
use crate::exports::exports_from;
use crate::fault::WrapFault;
use crate::finding::{ctors_of, dtors_of, imported, wrappers};
use crate::wrapper::{Asked, Wrapper};
use crate::writing::put_module;
use std::alloc::Global;
use wasm_grammar::ReadFault;
use wl_base::{OutOfMemory, Seq};

/// The most bytes that a module may have.
const MOST: usize = 0x7fff_ffff;

/// The number behind so many functions.
fn first_number(imports: usize, functions: usize) -> Result<u32, OutOfMemory>
    ensures { IfOk result (λ n. n ≡ imports + functions) }
{
    let Some(first) = imports.checked_add(functions) else {
        return Err(OutOfMemory);
    };
    match u32::try_from(first) {
        Ok(first) => Ok(first),
        Err(_) => Err(OutOfMemory),
    }
}

/// The types of functions, and of wrappers behind them.
fn with_kinds(functions: Seq<u32>, wrappers: &[Wrapper]) -> Result<Seq<u32>, OutOfMemory>
    ensures { IfOk result (λ all. all ≡ functions ++ map (λ (w : Wrapper). w.kind) wrappers.now) }
{
    let mut all = functions;
    for w in wrappers {
        all.push(w.kind)?;
    }
    Ok(all)
}

/// The bytes of a module that was cut, with wrappers that call these constructors.
fn with_wrappers(
    alloc: Global,
    asked: Asked,
    cut: Cuts<'_>,
    room: usize,
    ctors: u32,
) -> Result<Seq<u8>, OutOfMemory>
    ensures { IfOk result (λ out. (m : Module) → IsCut m (seen cut.entry) → module_of out ≡ Ok (wrapped_by asked m ctors)) }
{
    let Cuts {
        types,
        imports,
        functions,
        exports,
        kept,
    } = cut;
    let dtors = dtors_of(exports.as_slice());
    let imports = imported(imports.as_slice());
    let first = first_number(imports, functions.len())?;
    let added = wrappers(
        alloc,
        types.as_slice(),
        imports,
        functions.as_slice(),
        exports.as_slice(),
    )?;
    let exports = exports_from(
        alloc,
        asked,
        types.as_slice(),
        imports,
        functions.as_slice(),
        first,
        exports,
    )?;
    let functions = with_kinds(functions, added.as_slice())?;
    let mut out = Seq::with_room(alloc, room)?;
    put_module(
        alloc,
        &mut out,
        kept,
        functions.as_slice(),
        exports.as_slice(),
        ctors,
        dtors,
        added.as_slice(),
    )?;
    Ok(out)
}

/// The bytes of a module, wrapped; those of one without constructors as they are.
fn wrapped_bytes(alloc: Global, asked: Asked, bytes: &[u8]) -> Result<Seq<u8>, ReadFault>
    ensures { WrapsAny asked bytes.now result }
{
    let cut = cut_at(alloc, bytes.len(), bytes)?;
    match ctors_of(cut.exports.as_slice()) {
        None => Ok(Seq::from_slice(alloc, bytes)?),
        Some(ctors) => Ok(with_wrappers(alloc, asked, cut, bytes.len(), ctors)?),
    }
}

/// The bytes of a module, where they are few enough.
fn short(all: Seq<u8>) -> Result<Seq<u8>, WrapFault>
    ensures { Shortens all result }
{
    if all.len() > MOST {
        Err(WrapFault::TooLong(all.len() as u64))
    } else {
        Ok(all)
    }
}

/// The bytes of the module that these bytes are, with its exports wrapped. All but the sections of functions, exports and code
/// is copied as it is, custom sections too.
///
/// Memory is that of the bytes and of the wrapped ones.
///
/// # Errors
/// `NotModule` only where the bytes are no module. `TooLong` where the wrapped bytes would be 2^31 or more. Want of memory.
pub fn wrap(alloc: Global, asked: Asked, bytes: &[u8]) -> Result<Seq<u8>, WrapFault>
    ensures { Wraps asked bytes.now result }
{
    let out = wrapped_bytes(alloc, asked, bytes)?;
    short(out)
}
