//! Groups, of which a link takes one of each name (COMDAT).
ghost use Rattle.std.specs.Prelude.{◌≡◌};
ghost use Rattle.wasm_grammar.specs.Fault.{Reads, Gives};
ghost use Rattle.linking_section.specs.Linking.{SpellsMember, SpellsGroup};
ghost use Rattle.linking_section.specs.Reading.{member_kind_of, member_at, zero_at, group_at};

use crate::member_kinds;
use std::alloc::Global;
use wasm_grammar::{Form, ReadFault, Stop, byte_at, name_at, place, u32_at, vector_at};
use wl_base::{Name, Seq};

/// A part of an object that belongs to a group (Linking.md, 'Linking Metadata Section').
#[derive(Clone, Copy, Debug, PartialEq, Eq)]
pub struct Member {
    /// What it is, one of [`crate::member_kinds`].
    pub kind: u8,
    /// The index of the segment, function or section.
    pub index: u32,
}

/// A group: the parts that a link takes from one object together, or from none.
#[derive(Debug, PartialEq, Eq, Drop)]
pub struct Group {
    /// Its name, as UTF-8.
    pub name: Name,
    /// Its members, as they stand.
    pub members: Seq<Member>,
}

/// The kind of a member, by its byte at this place.
fn member_kind_of(place: usize, byte: u8) -> Result<u8, Stop>
    ensures { result ≡ member_kind_of place byte }
{
    match byte {
        member_kinds::DATA | member_kinds::FUNCTION | member_kinds::SECTION => Ok(byte),
        _ => Err(Stop::Broken(place)),
    }
}

/// The member at the front, and the bytes after it.
#[tactic(auto, unfolding(crate::specs::Reading::member_at))]
pub fn member_at(end: usize, bytes: &[u8]) -> Result<(Member, &[u8]), Stop>
    ensures { Reads (λ x. (x.0, x.1.now)) result (member_at end bytes.now) }
{
    let (byte, rest) = byte_at(end, bytes)?;
    let kind = member_kind_of(place(end, bytes), byte)?;
    let (index, rest) = u32_at(end, rest)?;
    Ok((Member { kind, index }, rest))
}

impl Form for Member {
    ghost use Rattle.linking_section.specs.ItemLaws.{member_reader};

    ghost spells = { SpellsMember };

    ghost read_at = { member_at };

    ghost exact = { member_reader };

    fn form_at(_alloc: Global, end: usize, bytes: &[u8]) -> Result<(Member, &[u8]), ReadFault> {
        Ok(member_at(end, bytes)?)
    }
}

/// The bytes after a u32 that has to be 0. Another one is broken at its own place.
#[tactic(auto, unfolding(crate::specs::Reading::zero_at))]
fn zero_at(end: usize, bytes: &[u8]) -> Result<&[u8], Stop>
    ensures { Reads (λ x. x.now) result (zero_at end bytes.now) }
{
    let (number, rest) = u32_at(end, bytes)?;
    if number == 0 {
        Ok(rest)
    } else {
        Err(Stop::Broken(place(end, bytes)))
    }
}

/// The group at the front, and the bytes after it.
#[tactic(auto, unfolding(crate::specs::Reading::group_at))]
pub fn group_at(alloc: Global, end: usize, bytes: &[u8]) -> Result<(Group, &[u8]), ReadFault>
    ensures { Gives (λ x. (x.0, x.1.now)) result (group_at end bytes.now) }
{
    let (name, rest) = name_at(alloc, end, bytes)?;
    let rest = zero_at(end, rest)?;
    let (members, rest) = vector_at(alloc, end, rest)?;
    Ok((Group { name, members }, rest))
}

impl Form for Group {
    ghost use Rattle.linking_section.specs.ItemLaws.{group_reader};

    ghost spells = { SpellsGroup };

    ghost read_at = { group_at };

    ghost exact = { group_reader };

    fn form_at(alloc: Global, end: usize, bytes: &[u8]) -> Result<(Group, &[u8]), ReadFault> {
        group_at(alloc, end, bytes)
    }
}
