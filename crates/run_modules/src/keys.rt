//! Which imported globals are one cell: of those with one module, name and type the first one's. A map by
//! these three makes it one look-up for each import.
ghost use Rattle.std.specs.Prelude.{◌≡◌, List, Some, option_map, IfOk, OnOk};
ghost use Rattle.indexmap.specs.IndexMap.{get};
ghost use Rattle.run_rules.specs.Modules.{GlobalImport, imported_global, imported_globals, cell_at};
ghost use Rattle.run_modules.specs.declared.keys.CellKey.{CellKey as Key};
ghost use Rattle.run_modules.specs.Keys.{key_seen, same_key, noted, ArePlaces};

use indexmap::IndexMap;
use std::alloc::Global;
use wasm_types::{Import, ImportKind, ValType};
use wl_base::OutOfMemory;

/// What tells imported globals apart.
#[derive(Clone, Copy, PartialEq, Eq, Hash)]
pub(crate) struct CellKey<'a> {
    /// The module that it is imported from.
    module: &'a [u8],
    /// Its name there.
    field: &'a [u8],
    /// The type of its value.
    kind: ValType,
    /// Whether it may change.
    var: bool,
}

/// The key of an import, where it is a global.
pub(crate) fn key_in<'a>(import: &'a Import) -> Option<CellKey<'a>>
    ensures { option_map key_seen result ≡ imported_global import.now import.now.kind }
{
    match import.kind {
        ImportKind::GlobalVar(kind) => Some(CellKey {
            module: import.module.as_slice(),
            field: import.field.as_slice(),
            kind: kind.kind,
            var: kind.var,
        }),
        _ => None,
    }
}

/// Notes the place of a key, unless it has one.
fn note<'a>(
    places: &mut IndexMap<CellKey<'a>, usize>,
    key: CellKey<'a>,
    place: usize,
) -> Result<(), OutOfMemory>
    ensures { OnOk result ((q : Key) → get same_key places.new q
        ≡ noted (get same_key places.old key.entry) (same_key key.entry q) place (get same_key places.old q)) }
{
    if places.get(&key).is_some() {
        return Ok(());
    }
    places.insert(key, place)?;
    Ok(())
}

/// The place, among imported globals, of the first of each key.
pub(crate) fn first_places<'a>(
    alloc: Global,
    imports: &'a [Import],
) -> Result<IndexMap<CellKey<'a>, usize>, OutOfMemory>
    ensures { IfOk result (λ places. ArePlaces (imported_globals imports.now) places) }
{
    let mut places: IndexMap<CellKey<'a>, usize> = IndexMap::new(alloc);
    let mut place: usize = 0;
    for import in imports {
        if let Some(key) = key_in(import) {
            note(&mut places, key, place)?;
            place += 1;
        }
    }
    Ok(places)
}

/// The cell of an imported global: the first place of its key, or else this one. A cell of 2^32 and more is
/// answered as want of memory.
pub(crate) fn cell_of(
    places: &IndexMap<CellKey<'_>, usize>,
    key: CellKey<'_>,
    next: usize,
) -> Result<u32, OutOfMemory>
    ensures { (globals : List GlobalImport) → ArePlaces globals places.now →
        IfOk result (λ cell. cell ≡ cell_at globals next (Some (key_seen key.entry))) }
{
    let cell = match places.get(&key) {
        Some(place) => *place,
        None => next,
    };
    if 0xFFFF_FFFF < cell {
        return Err(OutOfMemory);
    }
    Ok(cell as u32)
}
