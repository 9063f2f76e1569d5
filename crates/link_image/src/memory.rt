//! The memory (Core 5.5.8).
ghost use Rattle.std.specs.Prelude.{◌≡◌, [], ◌∷◌, if◌then◌else◌, true, IfOk};
ghost use Rattle.link_program.specs.link_rules.Marks.{by_mode};
ghost use Rattle.link_image.specs.Sections.{plain_memory, memory_seen, memory_import, memory_export};

use crate::shared::shared_memory;
use made_symbols::Mode;
use std::alloc::Global;
use wasm_module::{Export, export_kinds};
use wasm_types::{Import, ImportKind, Limits};
use wl_base::{OutOfMemory, Seq};

/// Whether the memory is imported, where this is what the words say. That of a shared output always is.
pub(crate) fn imports_memory(mode: Mode, asked: bool) -> bool
    ensures { result ≡ by_mode mode asked true }
{
    match mode {
        Mode::Plain => asked,
        Mode::Shared => true,
    }
}

// The memory by its pages at first and its greatest size in bytes. 2^32 pages and more are answered as want of memory.
fn plain_memory(pages: u32, most: Option<u64>) -> Result<Limits, OutOfMemory>
    ensures { IfOk result (λ limits. limits ≡ plain_memory pages most) }
{
    match most {
        None => Ok(Limits {
            min: pages,
            max: None,
        }),
        Some(bytes) => match u32::try_from(bytes / 65_536) {
            Ok(most) => Ok(Limits {
                min: pages,
                max: Some(most),
            }),
            Err(_) => Err(OutOfMemory),
        },
    }
}

/// The memory by its pages at first, the end of the data, and its greatest size in bytes; of a shared output as many pages as hold its data.
pub(crate) fn memory(
    mode: Mode,
    pages: u32,
    end: u32,
    most: Option<u64>,
) -> Result<Limits, OutOfMemory>
    ensures { IfOk result (λ limits. limits ≡ memory_seen mode pages end most) }
{
    match mode {
        Mode::Plain => plain_memory(pages, most),
        Mode::Shared => Ok(shared_memory(end)),
    }
}

/// The import of the memory, if it is imported.
pub(crate) fn memory_imports(
    alloc: Global,
    imported: bool,
    memory: Limits,
) -> Result<Seq<Import>, OutOfMemory>
    ensures { IfOk result (λ imports. imports ≡ (if imported then memory_import memory ∷ [] else [])) }
{
    let mut imports = Seq::new(alloc);
    if imported {
        let module = Seq::from_slice(alloc, b"env".as_slice())?;
        let field = Seq::from_slice(alloc, b"memory".as_slice())?;
        imports.push(Import {
            module,
            field,
            kind: ImportKind::Memory(memory),
        })?;
    }
    Ok(imports)
}

/// The memory, if it isn't imported.
pub(crate) fn memories(
    alloc: Global,
    imported: bool,
    memory: Limits,
) -> Result<Seq<Limits>, OutOfMemory>
    ensures { IfOk result (λ memories. memories ≡ (if imported then [] else memory ∷ [])) }
{
    let mut memories = Seq::new(alloc);
    if !imported {
        memories.push(memory)?;
    }
    Ok(memories)
}

/// The export of the memory, if it isn't imported.
pub(crate) fn memory_exports(alloc: Global, imported: bool) -> Result<Seq<Export>, OutOfMemory>
    ensures { IfOk result (λ exports. exports ≡ (if imported then [] else memory_export ∷ [])) }
{
    let mut exports = Seq::new(alloc);
    if !imported {
        let name = Seq::from_slice(alloc, b"memory".as_slice())?;
        exports.push(Export {
            name,
            kind: export_kinds::MEMORY,
            index: 0,
        })?;
    }
    Ok(exports)
}
