//! The symbols that the linker makes, in both modes.

use linking_section::SymbolKind;
use made_symbols::{Mode, changes, class, count, kind, name};

/// Whether a symbol is there, and has this name, kind and class, and is a variable or isn't.
fn is_made(mode: Mode, k: u32, text: &str, want: SymbolKind, rank: u8, changed: bool) -> bool {
    k < count(mode)
        && name(mode, k) == text.as_bytes()
        && kind(mode, k) == want
        && class(mode, k) == rank
        && changes(mode, k) == changed
}

fn are_plain(names: &[&str]) -> bool {
    let mut k = 0u32;
    for text in names {
        let want = match k {
            0 => SymbolKind::Function,
            1..=3 => SymbolKind::GlobalVar,
            4 => SymbolKind::Table,
            _ => SymbolKind::Datum,
        };
        let rank = if k < 5 { 0 } else { 2 };
        if !is_made(Mode::Plain, k, text, want, rank, k == 1) {
            return false;
        }
        k = k.wrapping_add(1);
    }
    k == count(Mode::Plain)
}

#[test]
fn plain_symbols(rt: HostRuntime) {
    let names = [
        "__wasm_call_ctors",
        "__stack_pointer",
        "__memory_base",
        "__table_base",
        "__indirect_function_table",
        "__heap_base",
        "__data_end",
        "__global_base",
        "__dso_handle",
        "__stack_low",
        "__stack_high",
        "__heap_end",
    ];
    assert!(rt; are_plain(&names));
}

fn are_shared(names: &[&str]) -> bool {
    let mut k = 0u32;
    for text in names {
        let want = match k {
            0 | 1 => SymbolKind::Function,
            2..=4 => SymbolKind::GlobalVar,
            5 => SymbolKind::Table,
            _ => SymbolKind::Datum,
        };
        let rank = if k < 6 { 0 } else { 2 };
        if !is_made(Mode::Shared, k, text, want, rank, k == 2) {
            return false;
        }
        k = k.wrapping_add(1);
    }
    k == count(Mode::Shared)
}

#[test]
fn shared_symbols(rt: HostRuntime) {
    let names = [
        "__wasm_call_ctors",
        "__wasm_apply_data_relocs",
        "__stack_pointer",
        "__memory_base",
        "__table_base",
        "__indirect_function_table",
        "__dso_handle",
    ];
    assert!(rt; are_shared(&names));
}
