//! Imports.
ghost use Rattle.std.specs.Prelude.{OnOk};
ghost use Rattle.wasm_grammar.specs.Fault.{Reads, Gives};
ghost use Rattle.wasm_grammar.specs.Writers.{Appends, Keeps};
ghost use Rattle.wasm_types.specs.Types.{SpellsImportKind, SpellsImport, tagged_import, import_kind_at, import_at};

use crate::table::{
    GlobalType, Limits, TableType, global_type_at, limits_at, put_global_type, put_limits,
    put_table_type, table_type_at,
};
use std::alloc::Global;
use wasm_grammar::{
    Form, ReadFault, Spell, Stop, byte_at, name_at, place, put_byte, put_bytes, put_u32, u32_at,
};
use wl_base::{Item, Name, OutOfMemory, Seq};

/// What an import is (Core 5.5.5).
#[derive(Clone, Copy, Debug, PartialEq, Eq)]
pub enum ImportKind {
    /// A function, by the index of its type.
    Function(u32),
    /// A table.
    Table(TableType),
    /// A memory, with its size in pages of 64 KiB.
    Memory(Limits),
    /// A global.
    GlobalVar(GlobalType),
}

/// What a module takes from outside (Core 5.5.5).
#[derive(Debug, PartialEq, Eq, Drop)]
pub struct Import {
    /// The module that it is taken from, as UTF-8.
    pub module: Name,
    /// Its name there, as UTF-8.
    pub field: Name,
    /// What it is.
    pub kind: ImportKind,
}

/// What an import is, behind the tag, which stands at this place.
fn tagged_import(
    tag: u8,
    place: usize,
    end: usize,
    rest: &[u8],
) -> Result<(ImportKind, &[u8]), Stop>
    ensures { Reads (λ x. (x.0, x.1.now)) result (tagged_import tag place end rest.now) }
{
    match tag {
        0 => {
            let (index, rest) = u32_at(end, rest)?;
            Ok((ImportKind::Function(index), rest))
        }
        1 => {
            let (kind, rest) = table_type_at(end, rest)?;
            Ok((ImportKind::Table(kind), rest))
        }
        2 => {
            let (limits, rest) = limits_at(end, rest)?;
            Ok((ImportKind::Memory(limits), rest))
        }
        3 => {
            let (kind, rest) = global_type_at(end, rest)?;
            Ok((ImportKind::GlobalVar(kind), rest))
        }
        4 => Err(Stop::Foreign(Item::TagImport)),
        _ => Err(Stop::Broken(place)),
    }
}

/// What an import is, and the bytes after it (Core 5.5.5, `importdesc`). A tag is foreign.
#[tactic(auto, unfolding(crate::specs::Types::import_kind_at))]
pub fn import_kind_at(end: usize, bytes: &[u8]) -> Result<(ImportKind, &[u8]), Stop>
    ensures { Reads (λ x. (x.0, x.1.now)) result (import_kind_at end bytes.now) }
{
    let (tag, rest) = byte_at(end, bytes)?;
    tagged_import(tag, place(end, bytes), end, rest)
}

/// The import at the front, and the bytes after it (Core 5.5.5).
#[tactic(auto, unfolding(crate::specs::Types::import_at))]
pub fn import_at(alloc: Global, end: usize, bytes: &[u8]) -> Result<(Import, &[u8]), ReadFault>
    ensures { Gives (λ x. (x.0, x.1.now)) result (import_at end bytes.now) }
{
    let (module, rest) = name_at(alloc, end, bytes)?;
    let (field, rest) = name_at(alloc, end, rest)?;
    let (kind, rest) = import_kind_at(end, rest)?;
    Ok((
        Import {
            module,
            field,
            kind,
        },
        rest,
    ))
}

/// Appends the shortest spelling (Core 5.5.5, `importdesc`).
#[tactic(auto, using(wasm_grammar::specs::WriterLaws::keeps_then))]
pub fn put_import_kind(to: &mut Seq<u8>, kind: &ImportKind) -> Result<(), OutOfMemory>
    ensures ok { OnOk result (Appends (SpellsImportKind kind.now) to.old to.new) }
    ensures keeps { Keeps to.old to.new }
{
    match kind {
        ImportKind::Function(index) => {
            put_byte(to, 0)?;
            put_u32(to, *index)
        }
        ImportKind::Table(t) => {
            put_byte(to, 1)?;
            put_table_type(to, t)
        }
        ImportKind::Memory(l) => {
            put_byte(to, 2)?;
            put_limits(to, l)
        }
        ImportKind::GlobalVar(t) => {
            put_byte(to, 3)?;
            put_global_type(to, t)
        }
    }
}

impl Form for Import {
    ghost use Rattle.wasm_types.specs.TypeLaws.{import_reader};

    ghost spells = { SpellsImport };

    ghost read_at = { import_at };

    ghost exact = { import_reader };

    fn form_at(alloc: Global, end: usize, bytes: &[u8]) -> Result<(Import, &[u8]), ReadFault> {
        import_at(alloc, end, bytes)
    }
}

impl Spell for Import {
    fn put(&self, to: &mut Seq<u8>) -> Result<(), OutOfMemory> {
        put_bytes(to, self.module.as_slice())?;
        put_bytes(to, self.field.as_slice())?;
        put_import_kind(to, &self.kind)
    }
}
