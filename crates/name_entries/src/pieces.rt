//! What is looked up of some of the objects, as one worker makes it.
ghost use Rattle.std.specs.Prelude.{◌≡◌, ◌++◌, ◌<◌, ◌≤◌, length, OnOk, IfOk};
ghost use Rattle.name_entries.specs.View.{GroupsAre};
ghost use Rattle.name_entries.specs.Fits.{GroupsAreNumbered};
ghost use Rattle.name_entries.specs.Pieces.{IsPiece};

use crate::parts::ObjectParts;
use crate::symbol_rows::{EntryRow, fill_rows};
use crate::table::parts_of;
use comdat_pick::ComdatWinners;
use link_names::Names;
use name_rules::Object;
use std::alloc::Global;
use wl_base::{OutOfMemory, Seq};
use wl_lists::{Lists, with_room};

/// What is looked up of objects that stand one behind another.
#[derive(Debug, Drop)]
pub(crate) struct Piece {
    pub(crate) parts: Seq<ObjectParts>,
    pub(crate) rows: Lists<EntryRow>,
}

/// Puts rows behind others.
fn add_rows(rows: &mut Lists<EntryRow>, more: &Lists<EntryRow>) -> Result<(), OutOfMemory>
    ensures { OnOk result (rows.new ≡ rows.old ++ more.now) }
{
    for at in 0..more.len() {
        rows.push(more.row(at))?;
    }
    Ok(())
}

/// Puts parts behind others.
fn add_parts(parts: &mut Seq<ObjectParts>, more: Seq<ObjectParts>) -> Result<(), OutOfMemory>
    ensures { OnOk result (parts.new ≡ parts.old ++ more) }
{
    let mut left = more.into_vec().into_iter();
    while let Some(own) = left.next() {
        parts.push(own)?;
    }
    Ok(())
}

impl Piece {
    /// What is looked up of the objects from one place up to another: `groups` has the winners of groups, by the numbers of the groups' names.
    pub(crate) fn of(
        alloc: Global,
        objects: &[Object],
        names: &Names,
        groups: &ComdatWinners,
        from: u32,
        to: u32,
    ) -> Result<Piece, OutOfMemory>
        requires numbers { GroupsAreNumbered objects.now names.now }
        requires groups { GroupsAre names.now.names objects.now groups.now }
        requires up { from ≤ to }
        requires there { to ≤ length objects.now }
        ensures { IfOk result (IsPiece objects.now names.now.symbols from to) }
    {
        let mut parts = with_room(alloc, (to - from) as usize)?;
        let mut rows = Lists::new(alloc);
        let mut row = Seq::new(alloc);
        for object in from..to {
            let one = &objects[object as usize];
            let own = parts_of(alloc, objects, object, one, names, groups)?;
            fill_rows(&mut row, objects, object, one, &own, names)?;
            rows.push(row.as_slice())?;
            parts.push(own)?;
        }
        Ok(Piece { parts, rows })
    }

    /// Puts a piece behind this one.
    pub(crate) fn add(&mut self, piece: Piece) -> Result<(), OutOfMemory>
        ensures parts { OnOk result (self.new.parts ≡ self.old.parts ++ piece.parts) }
        ensures rows { OnOk result (self.new.rows ≡ self.old.rows ++ piece.rows) }
    {
        let Piece { parts, rows } = piece;
        add_parts(&mut self.parts, parts)?;
        add_rows(&mut self.rows, &rows)?;
        Ok(())
    }
}
