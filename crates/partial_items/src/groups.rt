//! The groups of the object: those that their objects win, with the members that are left of them.
ghost use Rattle.std.specs.Prelude.{◌≡◌, ◌+◌, ◌++◌, ◌∷◌, [], Some, None, map, option_map, fold, length, slice_get, slice_index_or, IfOk, OnOk};
ghost use Rattle.std.specs.List.{cons_option};
ghost use Rattle.std.specs.Option.{option_or};
ghost use Rattle.partial_tree.specs.link_program.linking_section.declared.symbol.SymbolKind.TheVariants.{Function};
ghost use Rattle.partial_tree.specs.link_program.made_symbols.declared.mode.Mode.TheVariants.{Plain};
ghost use Rattle.partial_tree.specs.link_program.name_entries.Fits.{FitsObjects};
ghost use Rattle.partial_tree.specs.link_program.name_rules.Entries.{is_input};
ghost use Rattle.partial_tree.specs.link_program.link_rules.Program.{Program as Rules};
ghost use Rattle.partial_tree.specs.link_program.declared.program.Program.{Program as Data};
ghost use Rattle.partial_tree.specs.link_program.Program.{IsProgramOf};
ghost use Rattle.partial_tree.specs.partial_rules.Partial as partial;
ghost use Rattle.partial_tree.specs.partial_parts.Kept.{AreKept};
ghost use Rattle.partial_bytes.specs.Told.{group_told};
ghost use Rattle.partial_items.specs.Groups as told;
ghost use Rattle.partial_items.specs.Lent.{places_seen};

use crate::member::{Places, fill};
use linking_section::{Group, Member};
use partial_bytes::GroupRow;
use partial_tree::{Entries, Names, Object};
use std::alloc::Global;
use std::marker::Model;
use wl_base::{InputId, OutOfMemory, Seq};
use wl_lists::Lists;

/// Where a group stands.
#[derive(Clone, Copy, Debug)]
pub struct GroupAt {
    /// The place of its object among the objects.
    pub object: u32,
    /// Its place among the groups there.
    pub place: u32,
}

/// The groups of the object.
#[derive(Drop)]
pub struct Won {
    /// Where they stand.
    groups: Seq<GroupAt>,
    /// The members of each, by their numbers in the object.
    members: Lists<Member>,
}

impl Model for Won {
    ghost use Rattle.partial_items.specs.Groups.{Won as Seen};

    ghost Value = { Seen };

    ghost view = { λ w. record { groups = w.groups; members = w.members } };
}

/// The first, or else the second.
fn or_input(first: Option<InputId>, second: InputId) -> Option<InputId>
    ensures { result ≡ option_or first (Some second) }
{
    match first {
        Some(input) => Some(input),
        None => Some(second),
    }
}

/// Notes that an input has a group of the name of a number.
fn offer(column: &mut [Option<InputId>], input: InputId, number: u32)
    ensures { column.new ≡ told.offered input column.old number }
{
    let at = number as usize;
    if at < column.len() {
        column[at] = or_input(column[at], input);
    }
}

/// Notes the groups of an object.
#[tactic(auto, using(crate::proofs::Turns::offer_more, crate::proofs::Turns::offers_end, crate::proofs::Turns::no_offer))]
fn offer_all(column: &mut [Option<InputId>], names: &Names, object: u32, input: InputId)
    ensures { column.new ≡ fold (told.offered input) column.old (slice_index_or names.now.groups object []) }
{
    for place in 0..names.groups(object) {
        let Some(number) = names.group(object, place) else {
            return;
        };
        offer(column, input, number);
    }
}

/// By the number of a name, the first input that has a group of the name.
#[tactic(auto, using(crate::proofs::Turns::objects_offer, crate::proofs::Turns::objects_offered, crate::proofs::Turns::none_offers))]
fn first_inputs(alloc: Global, entries: Entries<'_>) -> Result<Vec<Option<InputId>>, OutOfMemory>
    requires { FitsObjects entries }
    ensures { IfOk result (λ column. column.items ≡ told.first_inputs (length entries.entry.names.now.names) entries.entry.names.now.groups entries.entry.objects.now) }
{
    let names = entries.names;
    let mut column = vec![in alloc; None; names.count() as usize]?;
    for object in 0..entries.count() {
        let Some(from) = entries.objects.get(object as usize) else {
            return Ok(column);
        };
        offer_all(column.as_mut_slice(), names, object, from.input);
    }
    Ok(column)
}

/// Whether an input wins the groups of the name of a number.
fn wins(winners: &[Option<InputId>], number: u32, input: InputId) -> bool
    ensures { result ≡ is_input input (slice_index_or winners.now number None) }
{
    match winners.get(number as usize) {
        Some(Some(winner)) => input == *winner,
        Some(None) | None => false,
    }
}

/// An object whose groups are looked at.
#[derive(Clone, Copy)]
struct Owner {
    /// Its place among the objects.
    object: u32,
    input: InputId,
    /// How many functions it imports.
    imports: u32,
}

/// The object at a place.
#[tactic(auto, using(crate::proofs::Turns::imports_counted))]
fn owner_of(entries: Entries<'_>, object: u32, from: &Object) -> Result<Owner, OutOfMemory>
    requires fits { FitsObjects entries }
    requires there { slice_get entries.objects.now object ≡ Some from.now }
    ensures { IfOk result (λ o. o ≡ told.owner_of object from.now) }
{
    let Some(parts) = entries.parts.get(object as usize) else {
        return Err(OutOfMemory);
    };
    let Ok(imports) = u32::try_from(parts.imports.functions.len()) else {
        return Err(OutOfMemory);
    };
    Ok(Owner {
        object,
        input: from.input,
        imports,
    })
}

impl Won {
    /// No groups.
    fn new(alloc: Global) -> Won
        ensures { result ≡ told.none_won }
    {
        Won {
            groups: Seq::new(alloc),
            members: Lists::new(alloc),
        }
    }

    /// One group more. `list` is used again and again.
    fn put(
        &mut self,
        list: &mut Vec<Member>,
        places: Places<'_>,
        owner: Owner,
        place: u32,
        group: &Group,
    ) -> Result<(), OutOfMemory>
        ensures { OnOk result (self.new ≡ told.with_group (places_seen places.entry) owner self.old place group.now) }
    {
        fill(
            list,
            places,
            owner.input,
            owner.imports,
            group.members.as_slice(),
        )?;
        self.members.push(list)?;
        self.groups.push(GroupAt {
            object: owner.object,
            place,
        })?;
        Ok(())
    }

    /// One group more, by the number of its name, where its object wins it.
    fn offer(
        &mut self,
        list: &mut Vec<Member>,
        places: Places<'_>,
        winners: &[Option<InputId>],
        owner: Owner,
        place: u32,
        group: &Group,
        number: u32,
    ) -> Result<(), OutOfMemory>
        ensures { OnOk result (self.new ≡ told.with_offer (places_seen places.entry) winners.now owner self.old place group.now number) }
    {
        if wins(winners, number, owner.input) {
            self.put(list, places, owner, place, group)
        } else {
            Ok(())
        }
    }

    /// The groups of an object more, those that it wins.
    #[tactic(auto, using(crate::proofs::Turns::one_group, crate::proofs::Turns::no_group, crate::proofs::Turns::no_number, crate::proofs::Turns::groups_end))]
    fn add(
        &mut self,
        list: &mut Vec<Member>,
        places: Places<'_>,
        winners: &[Option<InputId>],
        names: &Names,
        owner: Owner,
        groups: &[Group],
    ) -> Result<(), OutOfMemory>
        ensures { OnOk result (self.new ≡ told.with_groups (places_seen places.entry) winners.now owner self.old 0 groups.now (slice_index_or names.now.groups owner.object [])) }
    {
        for place in 0..names.groups(owner.object) {
            let Some(group) = groups.get(place as usize) else {
                return Ok(());
            };
            let Some(number) = names.group(owner.object, place) else {
                return Ok(());
            };
            self.offer(list, places, winners, owner, place, group, number)?;
        }
        Ok(())
    }

    /// Where the groups stand.
    fn groups(&self) -> &[GroupAt]
        ensures { result.now ≡ self.now.groups }
    {
        self.groups.as_slice()
    }

    /// The members of each.
    fn members(&self) -> &Lists<Member>
        ensures { result.now ≡ self.now.members }
    {
        &self.members
    }
}

/// The groups of all objects.
#[tactic(auto, using(crate::proofs::Turns::object_won, crate::proofs::Turns::objects_won, crate::proofs::Turns::none_wins))]
fn won_in(
    alloc: Global,
    places: Places<'_>,
    entries: Entries<'_>,
    winners: &[Option<InputId>],
) -> Result<Won, OutOfMemory>
    requires { FitsObjects entries }
    ensures { IfOk result (λ w. w ≡ told.with_objects (places_seen places.entry) winners.now entries.entry.names.now.groups 0 told.none_won entries.entry.objects.now) }
{
    let mut won = Won::new(alloc);
    let mut list = Vec::new(alloc);
    for object in 0..entries.count() {
        let Some(from) = entries.objects.get(object as usize) else {
            return Ok(won);
        };
        let owner = owner_of(entries, object, from)?;
        won.add(
            &mut list,
            places,
            winners,
            entries.names,
            owner,
            from.groups.as_slice(),
        )?;
    }
    Ok(won)
}

/// The groups of the object that a partial link makes of a program: those that their objects win. `entries` is the view of the program's
/// objects.
pub fn groups_of(
    alloc: Global,
    places: Places<'_>,
    entries: Entries<'_>,
) -> Result<Won, OutOfMemory>
    requires { FitsObjects entries }
    ensures { IfOk result (λ w. w ≡ told.all_won (places_seen places.entry) (length entries.entry.names.now.names) entries.entry.names.now.groups entries.entry.objects.now) }
{
    let winners = first_inputs(alloc, entries)?;
    let won = won_in(alloc, places, entries, winners.as_slice())?;
    Ok(won)
}

/// The group at a place, with these members.
fn row_of<'a>(objects: &'a [Object], at: GroupAt, members: &'a [Member]) -> Option<GroupRow<'a>>
    ensures { option_map group_told result ≡ told.group_with (told.group_there objects.now at) members.now }
{
    let Some(from) = objects.get(at.object as usize) else {
        return None;
    };
    let Some(group) = from.groups.get(at.place as usize) else {
        return None;
    };
    Some(GroupRow {
        name: group.name.as_slice(),
        members,
    })
}

/// Puts a group behind others, where there is one.
fn put<'a>(rows: &mut Seq<GroupRow<'a>>, found: Option<GroupRow<'a>>) -> Result<(), OutOfMemory>
    ensures { OnOk result (rows.new ≡ rows.old ++ cons_option found.entry []) }
{
    if let Some(row) = found {
        rows.push(row)?;
    }
    Ok(())
}

#[tactic(auto, using(crate::proofs::Turns::row_more, crate::proofs::Turns::rows_end))]
fn rows_in<'a>(
    alloc: Global,
    objects: &'a [Object],
    groups: &[GroupAt],
    members: &'a Lists<Member>,
) -> Result<Seq<GroupRow<'a>>, OutOfMemory>
    ensures { IfOk result (λ rows. map group_told rows ≡ told.rows_from objects.now members.now 0 groups.now) }
{
    let mut rows = Seq::new(alloc);
    for at in 0..groups.len() {
        put(&mut rows, row_of(objects, groups[at], members.row(at)))?;
    }
    Ok(rows)
}

/// The groups of the object that a partial link makes of a program, as rows that lend their names and members. Functions that are
/// imported, chunks and places are the program's.
pub fn group_rows<'a>(
    alloc: Global,
    objects: &'a [Object],
    won: &'a Won,
) -> Result<Seq<GroupRow<'a>>, OutOfMemory>
    ensures { IfOk result (λ rows. (d : Data) (p : Rules) (l : told.Places) → IsProgramOf Plain d p → objects.now ≡ d.objects.now → AreKept p l.kept
        → l.chunks ≡ map (λ part. part.chunk) p.parts → l.functions ≡ length (partial.open_of p Function)
        → won.now ≡ told.all_won l (length d.names.now.names) d.names.now.groups d.objects.now → map group_told rows ≡ (partial.relocatable p).groups) }
{
    let rows = rows_in(alloc, objects, won.groups(), won.members())?;
    Ok(rows)
}
