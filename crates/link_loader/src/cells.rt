//! The cells in which a loader puts foreign addresses, by the numbers of their imports. That of a function is told by the resolution; a foreign datum
//! means its own.
ghost use Rattle.std.specs.Prelude.{◌≡◌, ◌<◌, Some, true, codes, bytes_eq, if◌then◌else◌, length, slice_get, IsTrue};
ghost use Rattle.link_program.specs.name_rules.Entries.{ImportKey, same_import, same_symbol_type};
ghost use Rattle.link_program.specs.name_meanings.Kept.{cell_key, type_kept};
ghost use Rattle.link_loader.specs.Cells.{import_of, is_addressed, cell_at, cell_type, name_at, is_cell, tells_cell, all_tell};

use link_program::{ImportType, Lead, Program, Resolution, Symbol, symbol_at};
use linking_section::SymbolKind;
use wasm_types::ValType;

// The import that a symbol leads to; 0 where it leads to none.
fn import_of(lead: Lead) -> u32
    ensures { result ≡ import_of lead }
{
    match lead {
        Lead::Import(number) => number,
        Lead::Here(_) | Lead::Null | Lead::Nothing => 0,
    }
}

/// Whether a symbol is a function or a datum.
pub(crate) fn is_addressed(symbol: Symbol) -> bool
    ensures { result ≡ is_addressed symbol }
{
    symbol.kind == SymbolKind::Function || symbol.kind == SymbolKind::Datum
}

/// The number of the import of the cell of the address of a foreign function or datum, by the symbol's place among all symbols.
pub(crate) fn cell_at(resolution: &Resolution, at: u32, symbol: Symbol) -> u32
    ensures { result ≡ cell_at resolution.now.cells at symbol }
{
    if symbol.kind == SymbolKind::Function {
        match resolution.cell(at) {
            Some(number) => number,
            None => 0,
        }
    } else {
        import_of(symbol.lead)
    }
}

// Whether the type of an import is that of a cell.
fn is_cell_type(kind: &ImportType) -> bool
    ensures { result ≡ same_symbol_type (type_kept kind.now) cell_type }
{
    match kind {
        ImportType::GlobalVar(kind, var) => *kind == ValType::I32 && *var,
        ImportType::Function(_) | ImportType::Untyped => false,
    }
}

// Whether this is the module of the cells of functions, or of data.
fn is_module(function: bool, name: &[u8]) -> bool
    ensures { result ≡ bytes_eq name.now (if function then codes "GOT.func" else codes "GOT.mem") }
{
    if function {
        name == b"GOT.func".as_slice()
    } else {
        name == b"GOT.mem".as_slice()
    }
}

// Whether the import of a number is the cell of a function or datum of this name.
fn is_cell_of(resolution: &Resolution, function: bool, name: &[u8], number: u32) -> bool
    requires { number < length resolution.now.imports }
    ensures { (key : ImportKey) → slice_get resolution.now.imports number ≡ Some key → result ≡ same_import key (cell_key function name.now) }
{
    let (module, field) = resolution.import(number);
    is_module(function, module) && field == name && is_cell_type(resolution.import_type(number))
}

// The same, by the number of the name.
fn is_cell(program: Program<'_>, function: bool, name: Option<u32>, number: u32) -> bool
    ensures { result ≡ is_cell function (name_at program.entry.names.now.names name) (slice_get program.entry.resolution.now.imports number) }
{
    let Some(name) = name else {
        return false;
    };
    if name >= program.names.count() || number >= program.resolution.imports() {
        return false;
    }
    is_cell_of(
        program.resolution,
        function,
        program.names.name(name),
        number,
    )
}

// Whether the number that is told of a symbol's cell is that of its cell.
fn tells_cell(program: Program<'_>, at: u32, symbol: Symbol) -> bool
    ensures { result ≡ tells_cell program.entry.names.now.names program.entry.resolution.now.imports program.entry.resolution.now.cells at symbol }
{
    match symbol.lead {
        Lead::Import(_) => {
            !is_addressed(symbol)
                || is_cell(
                    program,
                    symbol.kind == SymbolKind::Function,
                    symbol.name,
                    cell_at(program.resolution, at, symbol),
                )
        }
        Lead::Here(_) | Lead::Null | Lead::Nothing => true,
    }
}

// Whether that is so of each of so many symbols.
#[tactic(auto, using(crate::proofs::Flagged::tell_more, crate::proofs::Flagged::tell_ended))]
fn symbols_tell(program: Program<'_>, count: u32) -> bool
    requires { length program.tables.now.symbols ≡ count }
    ensures { result ≡ all_tell program.entry.names.now.names program.entry.resolution.now.imports program.entry.resolution.now.cells 0 program.entry.tables.now.symbols }
{
    for at in 0..count {
        if !tells_cell(
            program,
            at,
            symbol_at(program.tables.symbols.as_slice(), at),
        ) {
            return false;
        }
    }
    true
}

/// Whether the numbers that are told of cells are those of the cells of foreign functions and data. A datum that means another import has the
/// name of what is no datum, and is refused before.
pub(crate) fn all_tell(program: Program<'_>) -> bool
    ensures { IsTrue result → all_tell program.entry.names.now.names program.entry.resolution.now.imports program.entry.resolution.now.cells 0 program.entry.tables.now.symbols ≡ true }
{
    match u32::try_from(program.tables.symbols.len()) {
        Ok(count) => symbols_tell(program, count),
        Err(_) => false,
    }
}
