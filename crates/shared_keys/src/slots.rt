//! In a shared output the link's own functions alone have slots.
ghost use Rattle.std.specs.Prelude.{◌≡◌, ◌++◌, ◌∷◌, [], filter, IfOk, OnOk};
ghost use Rattle.shared_keys.specs.Lists.{is_own_function};

use link_keys::FunctionKey;
use std::alloc::Global;
use wl_base::OutOfMemory;

/// Whether a function is defined by an object or is the linker's.
fn is_own_function(key: FunctionKey) -> bool
    ensures { result ≡ is_own_function key }
{
    match key {
        FunctionKey::Own { input: _, index: _ } => true,
        FunctionKey::Import(_) | FunctionKey::Stub(_) => false,
    }
}

/// Puts a function behind the others, if it is the link's own.
fn push_own(own: &mut Vec<FunctionKey>, key: FunctionKey) -> Result<(), OutOfMemory>
    ensures { OnOk result (own.new.items ≡ own.old.items ++ filter is_own_function (key ∷ [])) }
{
    if is_own_function(key) {
        own.push(key)?;
    }
    Ok(())
}

/// The link's own ones of these functions.
pub fn own_functions_of(
    alloc: Global,
    keys: &[FunctionKey],
) -> Result<Vec<FunctionKey>, OutOfMemory>
    ensures { IfOk result (λ own. own.items ≡ filter is_own_function keys.now) }
{
    let mut own = Vec::new(alloc);
    for key in keys {
        push_own(&mut own, *key)?;
    }
    Ok(own)
}
