//! What the indexes of an object name.
ghost use Rattle.std.specs.Prelude.{◌≡◌, false, slice_get, slice_index_or, option_map};
ghost use Rattle.name_rules.specs.object_file.wasm_types.declared.value.ValType.TheVariants as values;
ghost use Rattle.name_rules.specs.object_file.object_columns.Seen.{func_type_seen, import_seen};
ghost use Rattle.name_rules.specs.object_file.object_rules.Spaces.{ArePlaces, imports_of, imported_type};
ghost use Rattle.name_rules.specs.object_file.Spaces.{written_type, function_types, global_types, imported_global};

use name_rules::{FuncTypeRef, ImportPlaces, ImportRef, Object, SymbolKind};
use wasm_types::{GlobalType, ImportKind, ValType};

/// The place of an index; `None` exactly where there is none.
pub(crate) fn place_at(places: &[usize], index: u32) -> Option<usize>
    ensures { result ≡ slice_get places.now index }
{
    places.get(index as usize).copied()
}

/// The import that an index of this kind names; `None` exactly where it names none.
fn import_at<'a>(
    from: &'a Object,
    places: &ImportPlaces,
    kind: SymbolKind,
    index: u32,
) -> Option<ImportRef<'a>>
    requires { ArePlaces from.now.imports places.now }
    ensures { option_map import_seen result ≡ slice_get (imports_of kind from.now.imports) index }
{
    let at = place_at(places.of_kind(kind), index)?;
    from.imports.get(at)
}

/// The function type that an index of types names, or `() to ()`.
pub(crate) fn written_type(from: &Object, index: u32) -> FuncTypeRef<'_>
    ensures { func_type_seen result ≡ written_type from.now index }
{
    match from.types.get(index as usize) {
        Some(found) => found,
        None => FuncTypeRef {
            params: &[],
            results: &[],
        },
    }
}

/// The type index of an imported function.
fn imported_type(kind: ImportKind) -> Option<u32>
    ensures { result ≡ imported_type kind }
{
    match kind {
        ImportKind::Function(written) => Some(written),
        ImportKind::Table(_) | ImportKind::Memory(_) | ImportKind::GlobalVar(_) => None,
    }
}

/// The type index of a function; `None` exactly where there is no such function.
pub(crate) fn type_index(from: &Object, places: &ImportPlaces, index: u32) -> Option<u32>
    requires { ArePlaces from.now.imports places.now }
    ensures { option_map (written_type from.now) result ≡ slice_get (function_types from.now) index }
{
    let imported = places.functions.len();
    let at = index as usize;
    if at < imported {
        let import = import_at(from, places, SymbolKind::Function, index)?;
        imported_type(import.kind)
    } else {
        let function = from.functions.get(at - imported)?;
        Some(function.type_index)
    }
}

/// The type of an imported global.
fn imported_global(kind: ImportKind) -> Option<GlobalType>
    ensures { result ≡ imported_global kind }
{
    match kind {
        ImportKind::GlobalVar(written) => Some(written),
        ImportKind::Function(_) | ImportKind::Table(_) | ImportKind::Memory(_) => None,
    }
}

/// The type of a global, by its index; `None` exactly where there is no such global.
fn known_global(from: &Object, places: &ImportPlaces, index: u32) -> Option<GlobalType>
    requires { ArePlaces from.now.imports places.now }
    ensures { result ≡ slice_get (global_types from.now) index }
{
    let imported = places.globals.len();
    let at = index as usize;
    if at < imported {
        let import = import_at(from, places, SymbolKind::GlobalVar, index)?;
        imported_global(import.kind)
    } else {
        let global = from.globals.get(at - imported)?;
        Some(global.kind)
    }
}

/// The type of a global, by its index, or a constant i32 where there is no such global.
pub(crate) fn global_type(from: &Object, places: &ImportPlaces, index: u32) -> GlobalType
    requires { ArePlaces from.now.imports places.now }
    ensures { result ≡ slice_index_or (global_types from.now) index (record { kind = values.I32; var = false }) }
{
    match known_global(from, places, index) {
        Some(kind) => kind,
        None => GlobalType {
            kind: ValType::I32,
            var: false,
        },
    }
}
