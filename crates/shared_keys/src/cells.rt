//! The number of the import of a foreign symbol's cell. The program tells a number, which is only believed where the import is that of the
//! cell: so all that has to be known of what it tells is tested here.
ghost use Rattle.std.specs.Prelude.{◌≡◌, ◌<◌, true, [], Some, length, slice_get, slice_index_or, bytes_eq, codes, if◌then◌else◌, IfSome};
ghost use Rattle.link_keys.specs.link_program.name_meanings.Kept.{type_kept, cell_key};
ghost use Rattle.shared_keys.specs.Cells.{OneEach, is_function, is_cell_type, agrees, asks_cell, IsCellAt, IsCellOf};

use link_keys::{Names, Symbol, import_named};
use link_program::{ImportType, Lead, Resolution};
use linking_section::SymbolKind;
use reloc_section::kinds;
use wasm_types::ValType;

/// The module from which a loader takes the cells of functions' addresses (DynamicLinking.md).
const FUNCTION_CELLS: &str = "GOT.func";

/// The same of the addresses of data.
const DATA_CELLS: &str = "GOT.mem";

/// Whether a symbol is of a function.
fn is_function(symbol: Symbol) -> bool
    ensures { result ≡ is_function symbol }
{
    symbol.kind == SymbolKind::Function
}

/// Whether a reference asks for the cell of a foreign address. A call of a foreign function doesn't, nor does a foreign global.
pub(crate) fn asks_cell(kind: u8, symbol: Symbol) -> bool
    ensures { result ≡ asks_cell kind symbol }
{
    let here = match symbol.lead {
        Lead::Here(_) => true,
        Lead::Import(_) | Lead::Null | Lead::Nothing => false,
    };
    kind != kinds::FUNCTION_INDEX_LEB
        && !here
        && (symbol.kind == SymbolKind::Function || symbol.kind == SymbolKind::Datum)
}

/// Whether this is the module of the cells of functions, or of data.
fn is_module(function: bool, name: &[u8]) -> bool
    ensures { result ≡ bytes_eq name.now (if function then codes "GOT.func" else codes "GOT.mem") }
{
    if function {
        name == FUNCTION_CELLS.as_bytes()
    } else {
        name == DATA_CELLS.as_bytes()
    }
}

/// Whether this is the type of a cell.
fn is_cell_type(kind: &ImportType) -> bool
    ensures { result ≡ is_cell_type (type_kept kind.now) }
{
    match kind {
        ImportType::GlobalVar(ValType::I32, true) => true,
        ImportType::GlobalVar(_, _) | ImportType::Function(_) | ImportType::Untyped => false,
    }
}

/// Whether an import of this module, field and type is the cell of a name.
fn agrees(function: bool, from: &[u8], field: &[u8], kind: &ImportType, name: &[u8]) -> bool
    ensures { result ≡ agrees function from.now field.now (type_kept kind.now) name.now }
{
    is_module(function, from) && field == name && is_cell_type(kind)
}

/// Whether an import is the cell of a name.
fn is_cell(names: &Names, resolution: &Resolution, function: bool, name: u32, number: u32) -> bool
    ensures { result ≡ true → IsCellAt names.now.names resolution.now.imports function name number }
{
    if name >= names.count() || number >= resolution.imports() {
        return false;
    }
    let (module, field) = resolution.import(number);
    let kind = resolution.import_type(number);
    let name = names.name(name);
    agrees(function, module, field, kind, name)
}

/// The number of a symbol's cell, as the program tells it: a foreign datum means its cell.
fn number_told(resolution: &Resolution, at: u32, symbol: Symbol) -> Option<u32> {
    if is_function(symbol) {
        resolution.cell(at)
    } else {
        import_named(symbol.lead)
    }
}

/// The number of the import of a symbol's cell.
#[tactic(auto, using(crate::proofs::CellIs::cell_is))]
pub(crate) fn cell_of(
    names: &Names,
    resolution: &Resolution,
    at: u32,
    symbol: Symbol,
) -> Option<u32>
    requires one { OneEach resolution.now.imports }
    ensures { IfSome result (λ number. IsCellOf names.now.names resolution.now.imports symbol number) }
{
    let Some(name) = symbol.name else {
        return None;
    };
    let Some(number) = number_told(resolution, at, symbol) else {
        return None;
    };
    if is_cell(names, resolution, is_function(symbol), name, number) {
        return Some(number);
    }
    None
}
