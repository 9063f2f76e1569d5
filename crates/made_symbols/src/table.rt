//! The linker-made symbols by their numbers.
ghost use Rattle.std.specs.Prelude.{◌≡◌, ◌<◌, length};
ghost use Rattle.made_symbols.specs.Made.{made, made_at};
ghost use Rattle.made_symbols.specs.Shown.{shown};

use crate::{Mode, Role};
use linking_section::SymbolKind;

/// The number of `__stack_pointer` in a plain output.
pub const STACK_POINTER: u32 = 1;

/// A linker-made symbol.
#[derive(Clone, Copy)]
struct Row {
    name: &'static str,
    role: Role,
    kind: SymbolKind,
    class: u8,
    changes: bool,
}

static PLAIN: [Row; 12] = [
    Row {
        name: "__wasm_call_ctors",
        role: Role::CallCtors,
        kind: SymbolKind::Function,
        class: 0,
        changes: false,
    },
    Row {
        name: "__stack_pointer",
        role: Role::StackPointer,
        kind: SymbolKind::GlobalVar,
        class: 0,
        changes: true,
    },
    Row {
        name: "__memory_base",
        role: Role::MemoryBase,
        kind: SymbolKind::GlobalVar,
        class: 0,
        changes: false,
    },
    Row {
        name: "__table_base",
        role: Role::TableBase,
        kind: SymbolKind::GlobalVar,
        class: 0,
        changes: false,
    },
    Row {
        name: "__indirect_function_table",
        role: Role::IndirectFunctionTable,
        kind: SymbolKind::Table,
        class: 0,
        changes: false,
    },
    Row {
        name: "__heap_base",
        role: Role::HeapBase,
        kind: SymbolKind::Datum,
        class: 2,
        changes: false,
    },
    Row {
        name: "__data_end",
        role: Role::DataEnd,
        kind: SymbolKind::Datum,
        class: 2,
        changes: false,
    },
    Row {
        name: "__global_base",
        role: Role::GlobalBase,
        kind: SymbolKind::Datum,
        class: 2,
        changes: false,
    },
    Row {
        name: "__dso_handle",
        role: Role::DsoHandle,
        kind: SymbolKind::Datum,
        class: 2,
        changes: false,
    },
    Row {
        name: "__stack_low",
        role: Role::StackLow,
        kind: SymbolKind::Datum,
        class: 2,
        changes: false,
    },
    Row {
        name: "__stack_high",
        role: Role::StackHigh,
        kind: SymbolKind::Datum,
        class: 2,
        changes: false,
    },
    Row {
        name: "__heap_end",
        role: Role::HeapEnd,
        kind: SymbolKind::Datum,
        class: 2,
        changes: false,
    },
];

static SHARED: [Row; 7] = [
    Row {
        name: "__wasm_call_ctors",
        role: Role::CallCtors,
        kind: SymbolKind::Function,
        class: 0,
        changes: false,
    },
    Row {
        name: "__wasm_apply_data_relocs",
        role: Role::ApplyDataRelocs,
        kind: SymbolKind::Function,
        class: 0,
        changes: false,
    },
    Row {
        name: "__stack_pointer",
        role: Role::StackPointer,
        kind: SymbolKind::GlobalVar,
        class: 0,
        changes: true,
    },
    Row {
        name: "__memory_base",
        role: Role::MemoryBase,
        kind: SymbolKind::GlobalVar,
        class: 0,
        changes: false,
    },
    Row {
        name: "__table_base",
        role: Role::TableBase,
        kind: SymbolKind::GlobalVar,
        class: 0,
        changes: false,
    },
    Row {
        name: "__indirect_function_table",
        role: Role::IndirectFunctionTable,
        kind: SymbolKind::Table,
        class: 0,
        changes: false,
    },
    Row {
        name: "__dso_handle",
        role: Role::DsoHandle,
        kind: SymbolKind::Datum,
        class: 2,
        changes: false,
    },
];

/// The symbol of a number.
fn row_at(mode: Mode, k: u32) -> Row
    requires { k < length (made mode) }
    ensures { shown result ≡ made_at mode k }
{
    match mode {
        Mode::Plain => PLAIN[k as usize],
        Mode::Shared => SHARED[k as usize],
    }
}

/// How many symbols the linker makes.
pub fn count(mode: Mode) -> u32
    ensures { result ≡ length (made mode) }
{
    match mode {
        Mode::Plain => PLAIN.len() as u32,
        Mode::Shared => SHARED.len() as u32,
    }
}

/// The name of a linker-made symbol, by its number.
pub fn name(mode: Mode, k: u32) -> &'static [u8]
    requires { k < length (made mode) }
    ensures { result.now ≡ (made_at mode k).name }
{
    row_at(mode, k).name.as_bytes()
}

/// What a linker-made symbol stands for.
pub fn role(mode: Mode, k: u32) -> Role
    requires { k < length (made mode) }
    ensures { result ≡ (made_at mode k).role }
{
    row_at(mode, k).role
}

/// What a linker-made symbol names.
pub fn kind(mode: Mode, k: u32) -> SymbolKind
    requires { k < length (made mode) }
    ensures { result ≡ (made_at mode k).kind }
{
    row_at(mode, k).kind
}

/// The class of a linker-made symbol as a definition: 2 of a datum, which yields to each definition
/// of an object, and else 0, as of a strong one.
pub fn class(mode: Mode, k: u32) -> u8
    requires { k < length (made mode) }
    ensures { result ≡ (made_at mode k).class }
{
    row_at(mode, k).class
}

/// Whether a linker-made symbol is a global that may be written.
pub fn changes(mode: Mode, k: u32) -> bool
    requires { k < length (made mode) }
    ensures { result ≡ (made_at mode k).changes }
{
    row_at(mode, k).changes
}
