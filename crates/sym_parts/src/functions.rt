//! All functions of a program.
ghost use Rattle.std.specs.Prelude.{◌≡◌, ◌++◌, Some, map, drop, IfOk};
ghost use Rattle.link_program.specs.name_entries.Fits.{FitsObjects};
ghost use Rattle.sym_parts.specs.Sought.{known};
ghost use Rattle.sym_parts.specs.Code.{function_seen};

use crate::bodies::source_by;
use crate::kinds::kind_of;
use crate::sought::Sought;
use link_keys::At;
use link_program::{Entries, FunctionKey, Resolution};
use run_rules::Function;
use std::alloc::Global;
use wl_base::{OutOfMemory, Seq};

/// A function.
fn function_of(
    alloc: Global,
    k: Sought<'_>,
    files: &[Seq<u8>],
    resolution: &Resolution,
    entries: Entries<'_>,
    firsts: &[Option<At>],
    key: FunctionKey,
) -> Result<Option<Function>, OutOfMemory>
    requires { FitsObjects entries }
    ensures { IfOk result (λ f. function_seen (known k.entry) files.now resolution.now.imports entries.entry.objects.now firsts.now key ≡ Some f) }
{
    let kind = kind_of(alloc, resolution, k.tables, entries, firsts, key)?;
    let source = source_by(alloc, k, files, resolution, key)?;
    Ok(Some(Function { kind, source }))
}

/// All functions.
pub fn functions_of(
    alloc: Global,
    k: Sought<'_>,
    files: &[Seq<u8>],
    resolution: &Resolution,
    entries: Entries<'_>,
    firsts: &[Option<At>],
) -> Result<Seq<Option<Function>>, OutOfMemory>
    requires { FitsObjects entries }
    ensures { IfOk result (λ fs. map (function_seen (known k.entry) files.now resolution.now.imports entries.entry.objects.now firsts.now) k.entry.functions.now ≡ map Some fs) }
{
    let keys = k.functions.keys();
    let mut functions = Seq::new(alloc);
    for key in keys {
        let function = function_of(alloc, k, files, resolution, entries, firsts, *key)?;
        functions.push(function)?;
    }
    Ok(functions)
}
