//! Which parts of an object aren't kept, since another input wins their groups.
ghost use Rattle.std.specs.Prelude.{◌≡◌, ℕ, ◌==◌, ◌&&◌, ◌||◌, not, [], slice_get, slice_index_or, option_and_then, Some, None, OnOk, IfOk};
ghost use Rattle.std.specs.List.{list_any};
ghost use Rattle.name_rules.specs.object_file.linking_section.declared.member_kinds.TheConstants as kinds;
ghost use Rattle.name_rules.specs.Entries.{has_member, is_input};
ghost use Rattle.name_entries.specs.View.{GroupsAre};
ghost use Rattle.name_entries.specs.Parts.{has_flag, AreDropped};
ghost use Rattle.name_entries.specs.Fits.{GroupsAreNumbered};

use comdat_pick::ComdatWinners;
use link_names::Names;
use linking_section::member_kinds;
use name_rules::{Group, Member, Object};
use std::alloc::Global;
use wl_base::{InputId, OutOfMemory};

/// Flags of the functions and of the data segments of an object that aren't kept, by index.
#[derive(Debug, Drop)]
pub(crate) struct Dropped {
    pub(crate) functions: Vec<bool>,
    pub(crate) segments: Vec<bool>,
}

/// Sets the flag of an index.
fn set_flag(flags: &mut Vec<bool>, index: u32) -> Result<(), OutOfMemory>
    ensures { OnOk result ((k : ℕ) → has_flag flags.new.items k ≡ (has_flag flags.old.items k || (index == k))) }
{
    let at = index as usize;
    if at >= flags.len() {
        flags.resize(at + 1, false)?;
    }
    flags[at] = true;
    Ok(())
}

impl Dropped {
    /// All is kept. It takes no memory.
    pub(crate) fn nothing(alloc: Global) -> Self
        ensures functions { result.functions.items ≡ [] }
        ensures segments { result.segments.items ≡ [] }
    {
        Dropped {
            functions: Vec::new(alloc),
            segments: Vec::new(alloc),
        }
    }

    /// A member isn't kept. Only segments and functions are dropped with groups.
    fn drop_member(&mut self, member: Member) -> Result<(), OutOfMemory>
        ensures functions { OnOk result ((k : ℕ) → has_flag self.new.functions.items k
            ≡ (has_flag self.old.functions.items k || ((member.kind == kinds.FUNCTION) && (member.index == k)))) }
        ensures segments { OnOk result ((k : ℕ) → has_flag self.new.segments.items k
            ≡ (has_flag self.old.segments.items k || ((member.kind == kinds.DATA) && (member.index == k)))) }
    {
        match member.kind {
            member_kinds::DATA => set_flag(&mut self.segments, member.index),
            member_kinds::FUNCTION => set_flag(&mut self.functions, member.index),
            _ => Ok(()),
        }
    }

    /// No member of these is kept.
    fn drop_members(&mut self, members: &[Member]) -> Result<(), OutOfMemory>
        ensures functions { OnOk result ((k : ℕ) → has_flag self.new.functions.items k
            ≡ (has_flag self.old.functions.items k || list_any (λ m. (m.kind == kinds.FUNCTION) && (m.index == k)) members.now)) }
        ensures segments { OnOk result ((k : ℕ) → has_flag self.new.segments.items k
            ≡ (has_flag self.old.segments.items k || list_any (λ m. (m.kind == kinds.DATA) && (m.index == k)) members.now)) }
    {
        for member in members {
            self.drop_member(*member)?;
        }
        Ok(())
    }

    /// The members of a group are kept only where the object wins the group.
    pub(crate) fn drop_group(&mut self, group: &Group, wins: bool) -> Result<(), OutOfMemory>
        ensures functions { OnOk result ((k : ℕ) → has_flag self.new.functions.items k
            ≡ (has_flag self.old.functions.items k || (has_member kinds.FUNCTION k group.now && not wins))) }
        ensures segments { OnOk result ((k : ℕ) → has_flag self.new.segments.items k
            ≡ (has_flag self.old.segments.items k || (has_member kinds.DATA k group.now && not wins))) }
    {
        if wins {
            return Ok(());
        }
        self.drop_members(group.members.as_slice())
    }
}

/// The winner of a group of an object, both by their places.
fn winner_of(names: &Names, winners: &ComdatWinners, object: u32, group: u32) -> Option<InputId>
    ensures { result ≡ option_and_then (λ n. slice_index_or winners.now n None) (slice_get (slice_index_or names.now.groups object []) group) }
{
    let number = names.group(object, group)?;
    winners.of(number)
}

/// Whether an input is this winner.
fn is_input(input: InputId, winner: Option<InputId>) -> bool
    ensures { result ≡ is_input input winner }
{
    match winner {
        Some(other) => input == other,
        None => false,
    }
}

/// What isn't kept of an object, which has this place among the objects.
pub(crate) fn dropped_of(
    alloc: Global,
    objects: &[Object],
    object: u32,
    from: &Object,
    names: &Names,
    winners: &ComdatWinners,
) -> Result<Dropped, OutOfMemory>
    requires place { slice_get objects.now object ≡ Some from.now }
    requires numbers { GroupsAreNumbered objects.now names.now }
    requires winners { GroupsAre names.now.names objects.now winners.now }
    ensures functions { IfOk result (λ d. AreDropped objects.now from.now kinds.FUNCTION d.functions.items) }
    ensures segments { IfOk result (λ d. AreDropped objects.now from.now kinds.DATA d.segments.items) }
{
    let mut dropped = Dropped::nothing(alloc);
    for at in 0..names.groups(object) {
        match from.groups.get(at as usize) {
            Some(group) => {
                let wins = is_input(from.input, winner_of(names, winners, object, at));
                dropped.drop_group(group, wins)?;
            }
            None => {}
        }
    }
    Ok(dropped)
}
