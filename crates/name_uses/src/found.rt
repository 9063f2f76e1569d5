//! What is used of each name.
ghost use Rattle.std.specs.Prelude.{◌≡◌, length, fold, bytes_eq, IfOk};
ghost use Rattle.std.specs.List.{IsDistinct};
ghost use Rattle.name_entries.specs.Fits.{FitsObjects};
ghost use Rattle.name_uses.specs.Meant.{AreUsesOf};
ghost use Rattle.name_uses.specs.Flags.{flagged, nothing_used};
ghost use Rattle.name_uses.specs.Told.{told_upto};

use crate::putting::put_object;
use name_entries::Entries;
use std::alloc::Global;
use wl_base::{OutOfMemory, Seq};

/// A use of a function's name.
#[derive(Clone, Copy, Debug)]
pub struct NameUse {
    /// The number of the name.
    pub number: u32,
    /// Whether it is called there; else its address is used.
    pub calls: bool,
}

/// What is used of a name.
#[derive(Clone, Copy, Debug)]
pub struct NameUses {
    /// A `call` or an init entry names it.
    pub called: bool,
    /// Another window names it.
    pub addressed: bool,
}

/// One use more.
fn flag(columns: &mut [NameUses], found: NameUse)
    ensures { columns.new ≡ flagged columns.old found }
{
    let at = found.number as usize;
    if at < columns.len() {
        let before = columns[at];
        columns[at] = NameUses {
            called: before.called || found.calls,
            addressed: before.addressed || !found.calls,
        };
    }
}

/// These uses more.
fn flag_all(columns: &mut [NameUses], found: &[NameUse])
    ensures { columns.new ≡ fold flagged columns.old found.now }
{
    for one in found {
        flag(columns, *one);
    }
}

/// By the number of a name, what is used of it, from the uses of each object in turn.
fn columns_of(alloc: Global, entries: Entries<'_>) -> Result<Vec<NameUses>, OutOfMemory>
    requires { FitsObjects entries }
    ensures { IfOk result (λ columns. columns.items ≡ fold flagged (nothing_used (length entries.entry.names.now.names)) (told_upto entries.entry (length entries.entry.objects.now))) }
{
    let nothing = NameUses {
        called: false,
        addressed: false,
    };
    let mut columns = vec![in alloc; nothing; entries.names.count() as usize]?;
    let mut found = Seq::new(alloc);
    for object in 0..entries.count() {
        found.truncate(0);
        put_object(&mut found, entries, object)?;
        flag_all(&mut columns, found.as_slice());
    }
    Ok(columns)
}

/// By the number of a name, whether it is called and whether its address is used: by windows of kept parts, live or dead, and by init
/// entries that aren't skipped, which call (Linking.md, "Relocation Sections" and "Init Functions Subsection"). Only functions count, and
/// only symbols that are entries of their names.
///
/// # Errors
///
/// Memory is refused.
pub fn uses_of(alloc: Global, entries: Entries<'_>) -> Result<Vec<NameUses>, OutOfMemory>
    requires fits { FitsObjects entries }
    requires differ { IsDistinct bytes_eq entries.names.now.names }
    ensures { IfOk result (λ columns. AreUsesOf entries.entry.names.now.names entries.entry.objects.now columns.items) }
{
    let columns = columns_of(alloc, entries)?;
    Ok(columns)
}
