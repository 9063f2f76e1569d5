//! Members of groups, by their numbers in the object.
ghost use Rattle.std.specs.Prelude.{◌≡◌, ◌+◌, ◌++◌, [], filter_map, IfOk, OnOk};
ghost use Rattle.std.specs.List.{cons_option};
ghost use Rattle.partial_items.specs.Groups.{segment_member, function_member, member_with};
ghost use Rattle.partial_items.specs.Lent.{places_seen};

use linking_section::{Member, member_kinds};
use mark_bits::{Chunk, ChunkTable, kinds};
use partial_tree::{Kept, place_in};
use std::alloc::Global;
use wl_base::{InputId, OutOfMemory};

/// What is looked up.
#[derive(Clone, Copy)]
pub struct Places<'a> {
    /// The kept parts.
    pub kept: &'a Kept,
    /// The chunks of all parts.
    pub chunks: &'a ChunkTable,
    /// How many functions are imported.
    pub functions: u32,
}

/// The sum. One of 2^32 and more is answered as want of memory.
fn sum(a: u32, b: u32) -> Result<u32, OutOfMemory>
    ensures { IfOk result (λ n. n ≡ a + b) }
{
    match a.checked_add(b) {
        Some(n) => Ok(n),
        None => Err(OutOfMemory),
    }
}

/// The data segment of an index.
fn segment(places: Places<'_>, input: InputId, index: u32) -> Member
    ensures { result ≡ segment_member (places_seen places.entry) input index }
{
    let chunk = Chunk {
        input,
        kind: kinds::SEGMENT,
        index,
    };
    Member {
        kind: member_kinds::DATA,
        index: place_in(places.chunks, places.kept, chunk),
    }
}

/// The function that stands at a place among those that its object defines.
fn function(places: Places<'_>, input: InputId, index: u32) -> Result<Member, OutOfMemory>
    ensures { IfOk result (λ m. m ≡ function_member (places_seen places.entry) input index) }
{
    let chunk = Chunk {
        input,
        kind: kinds::FUNCTION,
        index,
    };
    let index = sum(
        places.functions,
        place_in(places.chunks, places.kept, chunk),
    )?;
    Ok(Member {
        kind: member_kinds::FUNCTION,
        index,
    })
}

/// A member of a group of an object that imports so many functions; those of other kinds are left out.
fn member(
    places: Places<'_>,
    input: InputId,
    imports: u32,
    own: Member,
) -> Result<Option<Member>, OutOfMemory>
    ensures { IfOk result (λ m. m ≡ member_with (places_seen places.entry) input imports own) }
{
    if own.kind == member_kinds::DATA {
        Ok(Some(segment(places, input, own.index)))
    } else if own.kind == member_kinds::FUNCTION {
        let found = function(places, input, own.index.saturating_sub(imports))?;
        Ok(Some(found))
    } else {
        Ok(None)
    }
}

/// Puts a member behind others, where there is one.
fn put(list: &mut Vec<Member>, found: Option<Member>) -> Result<(), OutOfMemory>
    ensures { OnOk result (list.new.items ≡ list.old.items ++ cons_option found []) }
{
    if let Some(own) = found {
        list.push(own)?;
    }
    Ok(())
}

/// The members of a group of an object, in a list that is used again and again.
pub(crate) fn fill(
    list: &mut Vec<Member>,
    places: Places<'_>,
    input: InputId,
    imports: u32,
    members: &[Member],
) -> Result<(), OutOfMemory>
    ensures { OnOk result (list.new.items ≡ filter_map (member_with (places_seen places.entry) input imports) members.now) }
{
    list.clear();
    for own in members {
        let found = member(places, input, imports, *own)?;
        put(list, found)?;
    }
    Ok(())
}
