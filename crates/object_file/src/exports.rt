//! The names under which an object's functions are exported.
ghost use Rattle.std.specs.Prelude.{◌≡◌, slice_get, slice_index_or, option_copied, None, IfOk};
ghost use Rattle.object_file.specs.Exports.{AreLast, noted, named, name_at};

use object_rules::Export;
use std::alloc::Global;
use wl_base::OutOfMemory;

/// For each function, by its index, the place of its last export. Where there is no export at all
/// the list is empty.
pub fn last_exports(
    alloc: Global,
    functions: usize,
    exports: &[Export],
) -> Result<Vec<Option<usize>>, OutOfMemory>
    ensures { IfOk result (λ places. AreLast exports.now functions places.items) }
{
    if exports.is_empty() {
        return Ok(Vec::new(alloc));
    }
    let mut places = vec![in alloc; None; functions]?;
    for (at, export) in exports.iter().enumerate() {
        note(&mut places, export, at);
    }
    Ok(places)
}

/// Notes the place of an export, where it is one of these functions.
fn note(places: &mut [Option<usize>], export: &Export, at: usize)
    ensures { places.new ≡ noted export.now at places.old }
{
    let index = export.index as usize;
    if export.kind == 0 && index < places.len() {
        places[index] = Some(at);
    }
}

/// The place of the last export of the function of this index.
pub fn place_of(last: &[Option<usize>], index: usize) -> Option<usize>
    ensures { result ≡ slice_index_or last.now index None }
{
    match last.get(index) {
        Some(place) => *place,
        None => None,
    }
}

/// The name of the export at this place, where there is one.
pub fn name_at(exports: &[Export], place: Option<usize>) -> Option<&[u8]>
    ensures { option_copied result ≡ name_at exports.now place }
{
    match place {
        None => None,
        Some(place) => name_of(exports, place),
    }
}

/// The name of the export at this place, where there is an export.
fn name_of(exports: &[Export], place: usize) -> Option<&[u8]>
    ensures { option_copied result ≡ named (slice_get exports.now place) }
{
    match exports.get(place) {
        None => None,
        Some(export) => Some(export.name.as_slice()),
    }
}

/// How many bytes the names of the exports at these places have.
pub fn names_in(exports: &[Export], places: &[Option<usize>]) -> usize {
    let mut len: usize = 0;
    for place in places {
        if let Some(name) = name_at(exports, *place) {
            len = len.saturating_add(name.len());
        }
    }
    len
}
