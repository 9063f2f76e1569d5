//! An imported table with as many entries as a script says. Nothing is copied: the module's own imports are changed.
ghost use Rattle.std.specs.Prelude.{◌≡◌, map};
ghost use Rattle.wasm_exec.specs.Entries.{long_kind, long_import};
ghost use Rattle.wasm_exec.specs.Entries.{with_entries as with_entries_of};

use std::alloc::Global;
use std::mem;
use wasm_module::Module;
use wasm_types::{Import, ImportKind, Limits, TableType};
use wl_base::Seq;

// What is imported, with so many entries where it is a table.
fn long_kind(entries: u32, kind: ImportKind) -> ImportKind
    ensures { result ≡ long_kind entries kind }
{
    match kind {
        ImportKind::Table(TableType { funcref, limits }) => ImportKind::Table(TableType {
            funcref,
            limits: Limits {
                min: entries,
                max: limits.max,
            },
        }),
        ImportKind::Function(index) => ImportKind::Function(index),
        ImportKind::Memory(limits) => ImportKind::Memory(limits),
        ImportKind::GlobalVar(global) => ImportKind::GlobalVar(global),
    }
}

fn lengthen(entries: u32, imports: &mut [Import])
    ensures { imports.new ≡ map (long_import entries) imports.old }
{
    for k in 0..imports.len() {
        imports[k].kind = long_kind(entries, imports[k].kind);
    }
}

/// The module, each of whose imported tables has this number of entries; itself, where none is said.
pub fn with_entries(alloc: Global, entries: Option<u32>, m: Module) -> Module
    ensures { result ≡ with_entries_of entries m }
{
    let mut m = m;
    if let Some(entries) = entries {
        let mut imports = mem::replace(&mut m.imports, Seq::new(alloc)).into_vec();
        lengthen(entries, imports.as_mut_slice());
        m.imports = Seq::from_vec(imports);
    }
    m
}
