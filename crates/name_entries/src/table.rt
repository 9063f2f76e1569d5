//! What is looked up of all objects.
ghost use Rattle.std.specs.Prelude.{◌≡◌, ◌++◌, ◌∷◌, [], ◌<◌, length, slice_get, Some, if◌then◌else◌, OnOk, IfOk};
ghost use Rattle.name_rules.specs.object_file.object_rules.Spaces.{is_function, is_table, is_global, ArePlaces};
ghost use Rattle.made_symbols.specs.declared.mode.Mode.{Mode};
ghost use Rattle.link_names.specs.Numbered.{AreNumbers};
ghost use Rattle.name_entries.specs.View.{InputsRise, GroupsAre};
ghost use Rattle.name_entries.specs.Parts.{ArePartsOf};
ghost use Rattle.name_entries.specs.Fits.{GroupsAreNumbered, IsTable, Fits};

use crate::dropping::dropped_of;
use crate::lookups::Entries;
use crate::making::made_piece;
use crate::parts::ObjectParts;
use crate::pieces::Piece;
use crate::symbol_rows::EntryRow;
use comdat_pick::ComdatWinners;
use link_names::Names;
use name_rules::{ImportPlaces, Imports, Object};
use std::alloc::Global;
use std::thread::Threads;
use wasm_types::ImportKind;
use wl_base::{OutOfMemory, Seq};
use wl_fan::Workers;
use wl_lists::{Lists, shrunk};

/// What is looked up of the objects; `view` lends it with them.
#[derive(Debug, Drop)]
pub struct EntryTable {
    parts: Seq<ObjectParts>,
    rows: Lists<EntryRow>,
}

/// Notes the place of an import of this kind.
fn note_place(places: &mut ImportPlaces, at: usize, kind: ImportKind) -> Result<(), OutOfMemory>
    ensures functions { OnOk result (places.new.functions ≡ (if is_function kind then places.old.functions ++ at ∷ [] else places.old.functions)) }
    ensures tables { OnOk result (places.new.tables ≡ (if is_table kind then places.old.tables ++ at ∷ [] else places.old.tables)) }
    ensures globals { OnOk result (places.new.globals ≡ (if is_global kind then places.old.globals ++ at ∷ [] else places.old.globals)) }
{
    match kind {
        ImportKind::Function(_) => places.functions.push(at),
        ImportKind::Table(_) => places.tables.push(at),
        ImportKind::GlobalVar(_) => places.globals.push(at),
        ImportKind::Memory(_) => Ok(()),
    }
}

/// Where the imports of each kind stand among these.
pub(crate) fn places_of(alloc: Global, imports: &Imports) -> Result<ImportPlaces, OutOfMemory>
    ensures { IfOk result (λ places. ArePlaces imports.now places) }
{
    let mut places = ImportPlaces {
        functions: Seq::new(alloc),
        tables: Seq::new(alloc),
        globals: Seq::new(alloc),
    };
    for at in 0..imports.len() {
        match imports.get(at) {
            Some(import) => note_place(&mut places, at, import.kind)?,
            None => {}
        }
    }
    Ok(places)
}

/// What is looked up of an object, which has this place among the objects.
pub(crate) fn parts_of(
    alloc: Global,
    objects: &[Object],
    object: u32,
    from: &Object,
    names: &Names,
    groups: &ComdatWinners,
) -> Result<ObjectParts, OutOfMemory>
    requires place { slice_get objects.now object ≡ Some from.now }
    requires numbers { GroupsAreNumbered objects.now names.now }
    requires groups { GroupsAre names.now.names objects.now groups.now }
    ensures { IfOk result (λ parts. ArePartsOf objects.now from.now parts) }
{
    let imports = places_of(alloc, &from.imports)?;
    let dropped = dropped_of(alloc, objects, object, from, names, groups)?;
    Ok(ObjectParts {
        imports,
        dropped_functions: shrunk(Seq::from_vec(dropped.functions)),
        dropped_segments: shrunk(Seq::from_vec(dropped.segments)),
    })
}

/// The table of what is looked up of all objects.
fn table_of(piece: Piece) -> EntryTable
    ensures parts { result.parts ≡ piece.parts }
    ensures rows { result.rows ≡ piece.rows }
{
    let Piece { parts, rows } = piece;
    EntryTable {
        parts,
        rows: rows.shrunk(),
    }
}

impl EntryTable {
    /// The table of these objects: `groups` has the winners of their groups, by the numbers of the groups' names.
    pub fn new(
        alloc: Global,
        objects: &[Object],
        names: &Names,
        groups: &ComdatWinners,
    ) -> Result<EntryTable, OutOfMemory>
        requires inputs { InputsRise 0 objects.now }
        requires numbers { GroupsAreNumbered objects.now names.now }
        requires groups { GroupsAre names.now.names objects.now groups.now }
        ensures { IfOk result (IsTable objects.now names.now) }
    {
        let piece = Piece::of(alloc, objects, names, groups, 0, objects.len() as u32)?;
        Ok(table_of(piece))
    }

    /// The same table, made by the workers, where the objects have many symbols.
    pub fn by_workers<R: Threads + Sync>(
        rt: &R,
        alloc: Global,
        objects: &[Object],
        names: &Names,
        groups: &ComdatWinners,
        workers: Workers,
    ) -> Result<EntryTable, OutOfMemory>
        requires numbers { GroupsAreNumbered objects.now names.now }
        requires groups { GroupsAre names.now.names objects.now groups.now }
        ensures { IfOk result (IsTable objects.now names.now) }
    {
        let piece = made_piece(rt, alloc, objects, names, groups, workers)?;
        Ok(table_of(piece))
    }

    /// The view of the objects that the table was made of.
    pub fn view<'a>(&'a self, objects: &'a [Object], names: &'a Names) -> Entries<'a>
        ensures objects { result.objects.now ≡ objects.now }
        ensures names { result.names.now ≡ names.now }
        ensures parts { result.parts.now ≡ self.now.parts }
        ensures fits { (mode : Mode) → AreNumbers mode objects.now names.now → InputsRise 0 objects.now
            → IsTable objects.now names.now self.now → Fits mode result }
    {
        Entries {
            objects,
            names,
            parts: self.parts.as_slice(),
            rows: &self.rows,
        }
    }
}
