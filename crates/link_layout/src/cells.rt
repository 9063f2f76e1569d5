//! The globals that code of a shared output names (DynamicLinking.md): the linker's are imports, and a foreign address stands in a cell,
//! which is one too. Which import it is, is known of each symbol; that it is the right one follows from it that names don't clash, which
//! no clause says here, so it is looked at once for each reference before windows are written.
ghost use Rattle.std.specs.Prelude.{◌≡◌, ◌<◌, Some, length, slice_get, option_and_then, bytes_eq, codes, if◌then◌else◌, ◌&&◌};
ghost use Rattle.std.specs.List.{list_all};
ghost use Rattle.link_program.specs.linking_section.Flags.{kind_code};
ghost use Rattle.link_program.specs.name_meanings.Kept.{type_kept};
ghost use Rattle.link_layout.specs.Cells as cells;
ghost use Rattle.link_layout.specs.Cells.{global_place, made_place, made_import, is_here, may_have_cell, has_cell, lead_import, is_function, cell_import, global_var, global_or_cell, is_var_told, is_cell_type, is_cell_key, is_cell_of, is_cell, is_told};
ghost use Rattle.link_layout.specs.Rows.{is_named_told, are_rows_told, are_told};
ghost use Rattle.link_layout.specs.Layout.{looked};

use crate::Layout;
use link_program::{
    GlobalKey, GotKey, ImportType, Lead, Mode, Named, Names, Resolution, Symbol, cell_meant,
    mode_of, row_at, symbol_at,
};
use linking_section::SymbolKind;
use made_symbols::{Role, count, role};
use reloc_section::kinds;
use wasm_types::ValType;

/// Which of the linker's globals it is, in the order of its table.
fn global_place(role: Role) -> Option<usize>
    ensures { result ≡ global_place role }
{
    match role {
        Role::StackPointer => Some(0),
        Role::MemoryBase => Some(1),
        Role::TableBase => Some(2),
        Role::CallCtors
        | Role::ApplyDataRelocs
        | Role::IndirectFunctionTable
        | Role::HeapBase
        | Role::DataEnd
        | Role::GlobalBase
        | Role::DsoHandle
        | Role::StackLow
        | Role::StackHigh
        | Role::HeapEnd => None,
    }
}

/// The same by the number of a linker-made symbol.
fn made_place(number: u32) -> Option<usize>
    ensures { result ≡ made_place number }
{
    if number < count(Mode::Shared) {
        global_place(role(Mode::Shared, number))
    } else {
        None
    }
}

/// The import of a linker-made global, by the number of its symbol.
pub fn made_import(resolution: &Resolution, number: u32) -> Option<u32>
    ensures { result ≡ option_and_then (slice_get resolution.now.made) (made_place number) }
{
    let place = made_place(number)?;
    resolution.made().get(place).copied()
}

/// Whether a symbol of this kind has an address.
fn may_have_cell(kind: SymbolKind) -> bool
    ensures { result ≡ may_have_cell kind }
{
    matches!(kind, SymbolKind::Function | SymbolKind::Datum)
}

/// Whether the link defines what a symbol means.
fn is_here(lead: Lead) -> bool
    ensures { result ≡ is_here lead }
{
    matches!(lead, Lead::Here(_))
}

/// Whether the address of a symbol stands in an imported cell.
fn has_cell(kind: SymbolKind, lead: Lead) -> bool
    ensures { result ≡ has_cell kind lead }
{
    may_have_cell(kind) && !is_here(lead)
}

/// The import that a symbol means.
fn lead_import(lead: Lead) -> Option<u32>
    ensures { result ≡ lead_import lead }
{
    match lead {
        Lead::Import(number) => Some(number),
        Lead::Here(_) | Lead::Null | Lead::Nothing => None,
    }
}

/// Whether it is a function.
fn is_function(kind: SymbolKind) -> bool
    ensures { result ≡ is_function kind }
{
    kind.code() == SymbolKind::Function.code()
}

/// Whether an import is a cell, by its type.
fn is_cell_type(kind: &ImportType) -> bool
    ensures { result ≡ is_cell_type (type_kept kind.now) }
{
    matches!(kind, ImportType::GlobalVar(ValType::I32, true))
}

/// The module from which cells are taken, of functions or of data.
fn cell_module(function: bool) -> &'static [u8]
    ensures { result.now ≡ (if function then codes "GOT.func" else codes "GOT.mem") }
{
    if function {
        "GOT.func".as_bytes()
    } else {
        "GOT.mem".as_bytes()
    }
}

/// Whether it is the cell of a function, or of a datum, of this name.
fn is_cell_key(function: bool, name: &[u8], resolution: &Resolution, number: u32) -> bool
    requires { number < length resolution.now.imports }
    ensures { is_cell_of function (Some name.now) (slice_get resolution.now.imports number) ≡ result }
{
    let (module, field) = resolution.import(number);
    module == cell_module(function) && field == name && is_cell_type(resolution.import_type(number))
}

/// Whether the numbers of a name and of an import are those of a cell.
fn is_cell(
    names: &Names,
    resolution: &Resolution,
    function: bool,
    name: Option<u32>,
    number: Option<u32>,
) -> bool
    ensures { result ≡ is_cell_of function (option_and_then (slice_get names.now.names) name) (option_and_then (slice_get resolution.now.imports) number) }
{
    let Some(name) = name else {
        return false;
    };
    let Some(number) = number else {
        return false;
    };
    if name >= names.count() || number >= resolution.imports() {
        return false;
    }
    is_cell_key(function, names.name(name), resolution, number)
}

impl Layout<'_> {
    /// The import of the cell of the symbol at a place.
    fn cell_import(self, at: u32, kind: SymbolKind, lead: Lead) -> Option<u32>
        ensures { result ≡ cell_import (looked self.entry) at kind lead }
    {
        if is_function(kind) {
            self.program.resolution.cell(at)
        } else {
            lead_import(lead)
        }
    }

    /// The global that the symbol of a global means.
    fn global_var(self, lead: Lead) -> GlobalKey
        ensures { result ≡ global_var (looked self.entry) lead }
    {
        match lead {
            Lead::Here(definition) => {
                if definition.input == 0 {
                    let import = made_import(self.program.resolution, definition.place);
                    GlobalKey::Import(import.unwrap_or(0))
                } else {
                    GlobalKey::Own {
                        input: definition.input,
                        index: definition.index,
                    }
                }
            }
            Lead::Import(number) => GlobalKey::Import(number),
            Lead::Null | Lead::Nothing => {
                GlobalKey::Got(GotKey::Null(SymbolKind::GlobalVar.code()))
            }
        }
    }

    /// The global that the symbol at a place means, or the cell of its address.
    pub(crate) fn global_or_cell(self, at: u32, kind: SymbolKind, lead: Lead) -> GlobalKey
        ensures { result ≡ global_or_cell (looked self.entry) at kind lead }
    {
        if kind.code() == SymbolKind::GlobalVar.code() {
            return self.global_var(lead);
        }
        if has_cell(kind, lead) {
            return GlobalKey::Import(self.cell_import(at, kind, lead).unwrap_or(0));
        }
        GlobalKey::Got(cell_meant(kind.code(), lead))
    }

    /// Whether the global that the symbol of a global means can be told.
    fn is_var_told(self, lead: Lead) -> bool
        ensures { result ≡ is_var_told (looked self.entry) lead }
    {
        match lead {
            Lead::Here(definition) => {
                definition.input != 0
                    || made_import(self.program.resolution, definition.place).is_some()
            }
            Lead::Import(_) | Lead::Null | Lead::Nothing => true,
        }
    }

    /// Whether the global that the symbol at a place means can be told.
    fn is_told(self, at: u32, symbol: Symbol) -> bool
        ensures { result ≡ is_told (looked self.entry) at symbol }
    {
        if symbol.kind.code() == SymbolKind::GlobalVar.code() {
            return self.is_var_told(symbol.lead);
        }
        if has_cell(symbol.kind, symbol.lead) {
            return is_cell(
                self.program.names,
                self.program.resolution,
                is_function(symbol.kind),
                symbol.name,
                self.cell_import(at, symbol.kind, symbol.lead),
            );
        }
        true
    }

    /// Whether the global that a window names can be told, where it names one.
    fn is_named_told(self, named: &Named) -> bool
        ensures { result ≡ is_named_told (looked self.entry) named.now }
    {
        match *named {
            Named::Symbol {
                kind,
                place: _,
                addend: _,
                symbol: at,
            } => {
                if kind != kinds::GLOBAL_INDEX_LEB {
                    return true;
                }
                self.is_told(at, symbol_at(self.program.tables.symbols.as_slice(), at))
            }
            Named::Type {
                place: _,
                number: _,
            } => true,
        }
    }
}

/// The same of all windows of a part.
fn is_row_told(layout: Layout<'_>, row: &[Named]) -> bool
    ensures { result ≡ list_all (is_named_told (looked layout.entry)) row.now }
{
    row.iter().all(|named| layout.is_named_told(named))
}

/// The same of all windows of these parts.
fn are_rows_told(layout: Layout<'_>, live: &[u32]) -> bool
    ensures { result ≡ are_rows_told (looked layout.entry) live.now }
{
    live.iter().all(|number| is_row_told(layout, row_at(layout.program.tables, *number)))
}

/// The same in either output: a plain one has no cells that are imports.
pub(crate) fn are_told(layout: Layout<'_>, live: &[u32]) -> bool
    ensures { result ≡ are_told (looked layout.entry) live.now }
{
    match mode_of(layout.program.plan) {
        Mode::Plain => true,
        Mode::Shared => are_rows_told(layout, live),
    }
}
