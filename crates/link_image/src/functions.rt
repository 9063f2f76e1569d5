//! The function section (Core 5.5.6).
ghost use Rattle.std.specs.Prelude.{◌≡◌, ◌++◌, drop, IfOk, OnOk};
ghost use Rattle.std.specs.Option.{option_to_list};
ghost use Rattle.link_image.specs.Sections.{type_seen, types_seen};

use link_program::FunctionKey;
use std::alloc::Global;
use wl_base::{OutOfMemory, Seq};

// The type of a function, where it is defined.
fn defined_type(key: FunctionKey, number: u32) -> Option<u32>
    ensures { result ≡ type_seen key number }
{
    match key {
        FunctionKey::Import(_) => None,
        FunctionKey::Own { input: _, index: _ } | FunctionKey::Stub(_) => Some(number),
    }
}

// Adds what is there.
fn add(numbers: &mut Seq<u32>, number: Option<u32>) -> Result<(), OutOfMemory>
    ensures { OnOk result (numbers.new ≡ numbers.old ++ option_to_list number) }
{
    match number {
        Some(number) => numbers.push(number),
        None => Ok(()),
    }
}

/// The numbers of the types of the defined functions. `types` has that of each function.
pub(crate) fn defined_types(
    alloc: Global,
    keys: &[FunctionKey],
    types: &[u32],
) -> Result<Seq<u32>, OutOfMemory>
    ensures { IfOk result (λ numbers. numbers ≡ types_seen types.now keys.now) }
{
    let mut numbers = Seq::new(alloc);
    for (at, key) in keys.iter().enumerate() {
        if let Some(number) = types.get(at) {
            add(&mut numbers, defined_type(*key, *number))?;
        }
    }
    Ok(numbers)
}
