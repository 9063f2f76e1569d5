//! The cells in which the loader of a shared output puts the addresses of names, by the numbers of the names.
ghost use Rattle.std.specs.Prelude.{◌≡◌, ◌<◌, Some, None, length, nat_lt, slice_index_or, slice_set, if◌then◌else◌, IfOk};
ghost use Rattle.name_meanings.specs.Known.{AreCells, IsCell};

use crate::imports::{ImportTable, OutputImport};
use name_entries::Names;
use std::alloc::Global;
use wl_base::OutOfMemory;

/// The number of a name, if it has one.
fn number_at(numbers: &[Option<u32>], name: u32) -> Option<u32>
    ensures { result ≡ slice_index_or numbers.now name None }
{
    match numbers.get(name as usize) {
        Some(number) => *number,
        None => None,
    }
}

/// Gives a name its number, where it has a place for one.
fn put(numbers: &mut Vec<Option<u32>>, name: u32, number: u32)
    ensures { numbers.new.items ≡ (if nat_lt name (length numbers.old.items) then slice_set numbers.old.items name (Some number) else numbers.old.items) }
{
    let at = name as usize;
    if at >= numbers.len() {
        return;
    }
    numbers[at] = Some(number);
}

/// The number of a name's cell among the imports, which goes last if it isn't there.
pub(crate) fn cell_number(
    alloc: Global,
    names: &Names,
    imports: &mut ImportTable,
    numbers: &mut Vec<Option<u32>>,
    function: bool,
    name: u32,
) -> Result<u32, OutOfMemory>
    requires name { name < length names.now.names }
    requires cells { AreCells function names.now.names imports.old numbers.old.items }
    ensures { IfOk result (λ number. IsCell function names.now.names name number imports.old imports.new numbers.new.items) }
{
    if let Some(number) = number_at(numbers.as_slice(), name) {
        return Ok(number);
    }
    let cell = OutputImport::cell(alloc, function, names.name(name))?;
    let number = imports.add(cell)?;
    put(numbers, name, number);
    Ok(number)
}
