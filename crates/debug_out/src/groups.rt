//! Debug sections by the numbers of their names, and where each begins in its joined section.
ghost use Rattle.std.specs.Prelude.{◌≡◌, ◌+◌, ◌<◌, ◌≤◌, ◌&&◌, ◌++◌, ◌∷◌, [], List, length, map, replicate, slice_index_or, slice_set, Some, None, ◌==◌, ℕ, IfOk, OnOk};
ghost use Rattle.wl_base.specs.Choice.{given, distinct_onto};
ghost use Rattle.std.specs.Str.{bytes_eq};
ghost use Rattle.debug_rules.specs.Faults.{Debug};
ghost use Rattle.debug_rules.specs.Joined.{names_of, place_at};
ghost use Rattle.debug_out.specs.Grouped.{IsGrouped, or_else};
ghost use Rattle.debug_out.specs.Refs.{debug_seen};

use crate::refs::DebugRef;
use std::alloc::Global;
use wl_base::{NameTable, OutOfMemory, Seq};

/// Debug sections by the numbers of their names.
#[derive(Drop)]
pub struct Groups<'a> {
    /// The sections of each name, in their order.
    pub members: Vec<Seq<DebugRef<'a>>>,
    /// How many bytes the sections of each name have.
    pub lengths: Vec<u64>,
    /// Where each section begins in its joined section, by its object and its place there.
    pub rows: Vec<Seq<Option<u64>>>,
}

/// Holds the name too.
#[tactic(auto, using(crate::proofs::Names::one_named))]
fn put_name(names: &mut NameTable, name: &[u8]) -> Result<(), OutOfMemory>
    ensures { OnOk result (names.new.names ≡ distinct_onto bytes_eq names.old.names (name.now ∷ [])) }
{
    match names.intern(name) {
        Ok(_) => Ok(()),
        Err(_) => Err(OutOfMemory),
    }
}

/// The names of the sections, each once, in the order in which they first come.
pub fn names_of(alloc: Global, all: &[DebugRef<'_>]) -> Result<NameTable, OutOfMemory>
    ensures { IfOk result (λ names. names.names ≡ names_of (map debug_seen all.now)) }
{
    let mut names = NameTable::new(alloc, u32::MAX);
    for d in all {
        put_name(&mut names, d.name)?;
    }
    Ok(names)
}

/// No section for any of so many names.
fn no_members<'a>(alloc: Global, count: usize) -> Result<Vec<Seq<DebugRef<'a>>>, OutOfMemory>
    ensures { IfOk result (λ lists. lists.items ≡ replicate count []) }
{
    let mut lists = Vec::with_capacity(alloc, count)?;
    for _ in 0..count {
        lists.push(Seq::new(alloc))?;
    }
    Ok(lists)
}

/// An empty row for each of so many objects.
fn no_rows(alloc: Global, count: usize) -> Result<Vec<Seq<Option<u64>>>, OutOfMemory>
    ensures { IfOk result (λ lists. lists.items ≡ replicate count []) }
{
    let mut lists = Vec::with_capacity(alloc, count)?;
    for _ in 0..count {
        lists.push(Seq::new(alloc))?;
    }
    Ok(lists)
}

/// Puts a section into the list of this number.
fn put_member<'a>(
    members: &mut Vec<Seq<DebugRef<'a>>>,
    n: usize,
    d: &DebugRef<'a>,
) -> Result<(), OutOfMemory>
    ensures within { OnOk result (n < length members.old.items) }
    ensures put { OnOk result (members.new.items ≡ slice_set members.old.items n (slice_index_or members.old.items n [] ++ d.now ∷ [])) }
{
    if n >= members.len() {
        return Err(OutOfMemory);
    }
    members[n].push(*d)?;
    Ok(())
}

/// Adds to the length of this number, and tells what it was.
fn put_length(lengths: &mut Vec<u64>, n: usize, more: u64) -> Result<u64, OutOfMemory>
    ensures within { OnOk result (n < length lengths.old.items) }
    ensures was { IfOk result (λ was. was ≡ slice_index_or lengths.old.items n 0) }
    ensures put { OnOk result (lengths.new.items ≡ slice_set lengths.old.items n (slice_index_or lengths.old.items n 0 + more)) }
{
    if n >= lengths.len() {
        return Err(OutOfMemory);
    }
    let was = lengths[n];
    let Some(sum) = was.checked_add(more) else {
        return Err(OutOfMemory);
    };
    lengths[n] = sum;
    Ok(was)
}

/// Notes where the section at a place of an object begins. Places rise.
fn note(row: &mut Seq<Option<u64>>, at: u64, begin: u64) -> Result<(), OutOfMemory>
    ensures { OnOk result ((k : ℕ) → slice_index_or row.new k None ≡ or_else (slice_index_or row.old k None) (given (at == k) begin)) }
{
    if row.len() as u64 > at {
        return Err(OutOfMemory);
    }
    fill_up(row, at)?;
    row.push(Some(begin))?;
    Ok(())
}

/// Makes the row so long, where it was no longer.
fn fill_up(row: &mut Seq<Option<u64>>, len: u64) -> Result<(), OutOfMemory>
    requires { length row.old ≤ len }
    ensures long { OnOk result (length row.new ≡ len) }
    ensures same { OnOk result ((k : ℕ) → slice_index_or row.new k None ≡ slice_index_or row.old k None) }
{
    while (row.len() as u64) < len {
        row.push(None)?;
    }
    Ok(())
}

/// The same in the row of an object.
fn put_begin(
    rows: &mut Vec<Seq<Option<u64>>>,
    object: u32,
    at: u64,
    begin: u64,
) -> Result<(), OutOfMemory>
    ensures { OnOk result ((o k : ℕ) → place_at rows.new.items o k ≡ or_else (place_at rows.old.items o k) (given ((object == o) && (at == k)) begin)) }
{
    let object = object as usize;
    if object >= rows.len() {
        return Err(OutOfMemory);
    }
    note(&mut rows[object], at, begin)
}

impl<'a> Groups<'a> {
    /// No section, with room for so many names and objects.
    fn empty(alloc: Global, names: &NameTable, objects: usize) -> Result<Groups<'a>, OutOfMemory>
        ensures { IfOk result (λ g. IsGrouped names.now.names g []) }
    {
        let count = names.count() as usize;
        Ok(Groups {
            members: no_members(alloc, count)?,
            lengths: vec![in alloc; 0; count]?,
            rows: no_rows(alloc, objects)?,
        })
    }

    /// Puts a section behind those of its name.
    fn put(&mut self, names: &NameTable, d: &DebugRef<'a>) -> Result<(), OutOfMemory>
        ensures { OnOk result ((ds : List Debug) → IsGrouped names.now.names self.old ds → IsGrouped names.now.names self.new (ds ++ debug_seen d.now ∷ [])) }
    {
        let Some(n) = names.find(d.name) else {
            return Err(OutOfMemory);
        };
        let n = n as usize;
        put_member(&mut self.members, n, d)?;
        let begin = put_length(&mut self.lengths, n, d.content.len() as u64)?;
        put_begin(&mut self.rows, d.object, u64::from(d.at), begin)?;
        Ok(())
    }
}

/// The sections by the numbers of their names.
pub fn grouped<'a>(
    alloc: Global,
    names: &NameTable,
    objects: usize,
    all: &[DebugRef<'a>],
) -> Result<Groups<'a>, OutOfMemory>
    ensures { IfOk result (λ g. IsGrouped names.now.names g (map debug_seen all.now)) }
{
    let mut groups = Groups::empty(alloc, names, objects)?;
    for d in all {
        groups.put(names, d)?;
    }
    Ok(groups)
}

/// A row in 32 bits. No place is past them in sections that fit.
fn short_row(alloc: Global, row: &[Option<u64>]) -> Result<Seq<Option<u32>>, OutOfMemory>
    ensures { IfOk result (λ short. short ≡ row.now) }
{
    let mut short = Seq::with_room(alloc, row.len())?;
    for begin in row {
        match begin {
            None => short.push(None)?,
            Some(begin) => {
                let Ok(begin) = u32::try_from(*begin) else {
                    return Err(OutOfMemory);
                };
                short.push(Some(begin))?;
            }
        }
    }
    Ok(short)
}

/// Where sections begin, in 32 bits.
pub fn short_rows(
    alloc: Global,
    rows: &[Seq<Option<u64>>],
) -> Result<Seq<Seq<Option<u32>>>, OutOfMemory>
    ensures { IfOk result (λ short. short ≡ rows.now) }
{
    let mut short = Seq::with_room(alloc, rows.len())?;
    for row in rows {
        short.push(short_row(alloc, row.as_slice())?)?;
    }
    Ok(short)
}
