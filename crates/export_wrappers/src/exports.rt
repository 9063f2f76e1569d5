//! The exports of a wrapped module.
ghost use Rattle.std.specs.Prelude.{◌≡◌, ◌++◌, ◌∷◌, [], ◌<◌, ◌^◌, if◌then◌else◌, IfOk, OnOk};
ghost use Rattle.export_wrappers.specs.Wrapped.{wrapper_in, exported_as, next_after, last_after, exports_from};

use crate::finding::{is_kept, wrapper_in};
use crate::wrapper::{Asked, Wrapper};
use std::alloc::Global;
use wasm_module::{Export, FuncType};
use wl_base::{OutOfMemory, Seq};

/// An export, where it is wrapped by the function of this number.
fn exported_as(next: u32, e: Export, wrapper: Option<Wrapper>) -> Export
    ensures { result ≡ exported_as next e wrapper }
{
    match wrapper {
        None => e,
        Some(_) => Export {
            name: e.name,
            kind: e.kind,
            index: next,
        },
    }
}

/// The number behind an export that is wrapped or isn't.
fn next_after(next: u32, wrapper: Option<Wrapper>) -> Result<u32, OutOfMemory>
    ensures value { IfOk result (λ n. n ≡ next_after next wrapper) }
    ensures fits { IfOk result (λ n. n < 2 ^ 32) }
{
    match wrapper {
        None => Ok(next),
        Some(_) => match next.checked_add(1) {
            None => Err(OutOfMemory),
            Some(next) => Ok(next),
        },
    }
}

/// Puts an export behind others, where it stays.
fn put_export(all: &mut Seq<Export>, stays: bool, e: Export) -> Result<(), OutOfMemory>
    ensures { OnOk result (all.new ≡ all.old ++ (if stays then e ∷ [] else [])) }
{
    if stays {
        all.push(e)?;
    }
    Ok(())
}

/// The exports that stay, each function that is wrapped by the number of its wrapper; these count from `first`.
pub fn exports_from(
    alloc: Global,
    asked: Asked,
    types: &[FuncType],
    imports: usize,
    functions: &[u32],
    first: u32,
    exports: Seq<Export>,
) -> Result<Seq<Export>, OutOfMemory>
    ensures value { IfOk result (λ all. all ≡ exports_from asked (wrapper_in types.now imports functions.now) first exports) }
    // All numbers are u32.
    ensures fits { IfOk result (λ all. last_after (wrapper_in types.now imports functions.now) first exports < 2 ^ 32) }
{
    let mut all = Seq::new(alloc);
    let mut next = first;
    let mut left = exports.into_vec().into_iter();
    while let Some(e) = left.next() {
        let wrapper = wrapper_in(types, imports, functions, &e);
        let stays = is_kept(asked, &e);
        put_export(&mut all, stays, exported_as(next, e, wrapper))?;
        next = next_after(next, wrapper)?;
    }
    Ok(all)
}
