//! Imports.
ghost use Rattle.std.specs.Prelude.{◌≡◌};
ghost use Rattle.wasm_instr.specs.wasm_grammar.Fault.{Reads, Gives};
ghost use Rattle.object_parts.specs.Turns.{turns_at, entries_at};
ghost use Rattle.object_parts.specs.Imports.{names_table, seen_kind, seen_import, none_seen, funcref_table_at, table_import_at, taken_kind, object_import_at};

use std::alloc::Global;
use wasm_grammar::{ReadFault, Stop, byte_at, name_at, none_at, u32_at};
use wasm_module::{Import, ImportKind, import_kind_at, table_type_at};
use wl_base::{Item, Seq};

/// Which imports came before.
#[derive(Clone, Copy, Debug, PartialEq, Eq)]
pub struct Seen {
    /// Whether one was a table.
    pub table: bool,
    /// Whether one was a memory.
    pub memory: bool,
}

fn names_table(from: &[u8], field: &[u8]) -> bool
    ensures { result ≡ names_table from.now field.now }
{
    from == b"env".as_slice() && field == b"__indirect_function_table".as_slice()
}

fn seen_kind(seen: Seen, kind: &ImportKind) -> Seen
    ensures { result ≡ seen_kind seen kind.now }
{
    match kind {
        ImportKind::Function(_) => seen,
        ImportKind::Table(_) => Seen {
            table: true,
            memory: seen.memory,
        },
        ImportKind::Memory(_) => Seen {
            table: seen.table,
            memory: true,
        },
        ImportKind::GlobalVar(_) => seen,
    }
}

#[tactic(auto, unfolding(crate::specs::Imports::funcref_table_at))]
fn funcref_table_at(end: usize, bytes: &[u8]) -> Result<(ImportKind, &[u8]), Stop>
    ensures { Reads (λ x. (x.0, x.1.now)) result (funcref_table_at end bytes.now) }
{
    let (byte, _) = byte_at(end, bytes)?;
    if byte == 0x6f {
        return Err(Stop::Foreign(Item::OtherTable));
    }
    let (table, rest) = table_type_at(end, bytes)?;
    Ok((ImportKind::Table(table), rest))
}

fn table_import_at(taken: bool, end: usize, rest: &[u8]) -> Result<(ImportKind, &[u8]), Stop>
    ensures { Reads (λ x. (x.0, x.1.now)) result (table_import_at taken end rest.now) }
{
    if taken {
        funcref_table_at(end, rest)
    } else {
        Err(Stop::Foreign(Item::OtherTable))
    }
}

fn taken_kind<'a>(
    seen: Seen,
    named: bool,
    tag: u8,
    end: usize,
    bytes: &'a [u8],
    rest: &'a [u8],
) -> Result<(ImportKind, &'a [u8]), Stop>
    ensures { Reads (λ x. (x.0, x.1.now)) result (taken_kind seen named tag end bytes.now rest.now) }
{
    match tag {
        1 => table_import_at(named && !seen.table, end, rest),
        2 if seen.memory => Err(Stop::Foreign(Item::MoreMemories)),
        _ => import_kind_at(end, bytes),
    }
}

/// The import at the front, where others came before, and the bytes after it.
#[tactic(auto, unfolding(crate::specs::Imports::object_import_at))]
fn object_import_at(
    alloc: Global,
    seen: Seen,
    end: usize,
    bytes: &[u8],
) -> Result<(Import, &[u8]), ReadFault>
    ensures { Gives (λ x. (x.0, x.1.now)) result (object_import_at seen end bytes.now) }
{
    let (module, rest) = name_at(alloc, end, bytes)?;
    let (field, rest) = name_at(alloc, end, rest)?;
    let (tag, after) = byte_at(end, rest)?;
    let named = names_table(module.as_slice(), field.as_slice());
    let (kind, rest) = taken_kind(seen, named, tag, end, rest, after)?;
    Ok((
        Import {
            module,
            field,
            kind,
        },
        rest,
    ))
}

/// So many imports, and the bytes after them.
fn many_imports(
    alloc: Global,
    count: u32,
    end: usize,
    bytes: &[u8],
) -> Result<(Seq<Import>, &[u8]), ReadFault>
    ensures { Gives (λ x. (x.0, x.1.now)) result (turns_at object_import_at seen_import count none_seen end bytes.now) }
{
    let mut imports = Seq::new(alloc);
    let mut seen = Seen {
        table: false,
        memory: false,
    };
    let mut rest = bytes;
    for _ in 0..count {
        let (import, after) = object_import_at(alloc, seen, end, rest)?;
        seen = seen_kind(seen, &import.kind);
        imports.push(import)?;
        rest = after;
    }
    Ok((imports, rest))
}

/// The imports that are all the bytes (Core 5.5.5).
#[tactic(auto, unfolding(crate::specs::Turns::entries_at))]
pub fn imports_at(alloc: Global, end: usize, payload: &[u8]) -> Result<Seq<Import>, ReadFault>
    ensures { Gives (λ x. x) result (entries_at object_import_at seen_import none_seen end payload.now) }
{
    let (count, rest) = u32_at(end, payload)?;
    let (imports, rest) = many_imports(alloc, count, end, rest)?;
    none_at(end, rest)?;
    Ok(imports)
}
