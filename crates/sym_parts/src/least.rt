//! The least entries of names.
ghost use Rattle.std.specs.Prelude.{◌≡◌, [], None, replicate, slice_index_or, length, IfOk};
ghost use Rattle.link_keys.specs.Firsts.{first_at, firsts_row, firsts_rows};

use link_keys::At;
use link_program::Names;
use std::alloc::Global;
use wl_base::OutOfMemory;

/// Puts a symbol into the column where it is the first one of its name.
fn note_first(firsts: &mut [Option<At>], at: At, number: Option<u32>)
    ensures { firsts.new ≡ first_at firsts.old at number }
{
    if let Some(number) = number {
        let number = number as usize;
        if number < firsts.len() && firsts[number].is_none() {
            firsts[number] = Some(at);
        }
    }
}

/// Puts the symbols of an object into the column.
fn note_object(firsts: &mut [Option<At>], names: &Names, object: u32)
    ensures { firsts.new ≡ firsts_row object 0 firsts.old (slice_index_or names.now.symbols object []) }
{
    for place in 0..names.symbols(object) {
        note_first(firsts, At { object, place }, names.symbol(object, place));
    }
}

/// The least entry of each name, by the number of the name, among the symbols of so many objects.
pub fn least_entries(
    alloc: Global,
    names: &Names,
    objects: u32,
) -> Result<Vec<Option<At>>, OutOfMemory>
    requires { length names.now.symbols ≡ objects }
    ensures { IfOk result (λ firsts. firsts.items ≡ firsts_rows 0 (replicate (length names.now.names) None) names.now.symbols) }
{
    let mut firsts = vec![in alloc; None; names.count() as usize]?;
    for object in 0..objects {
        note_object(firsts.as_mut_slice(), names, object);
    }
    Ok(firsts)
}
