//! The joined debug sections: found and measured, and then written.
ghost use Rattle.std.specs.Prelude.{◌≡◌, ◌+◌, List, map, flat_map, length as list_length, IfOk};
ghost use Rattle.std.specs.List.{AllByRecursion};
ghost use Rattle.wl_base.specs.Choice.{unless};
ghost use Rattle.debug_rules.specs.Faults.{Debug};
ghost use Rattle.debug_rules.specs.Joined.{Places, names_of, section_of, tail_of, length_fault, joined};
ghost use Rattle.debug_out.specs.Refs.{debug_seen};
ghost use Rattle.debug_out.specs.Inputs.{inputs_of, places_of};
ghost use Rattle.debug_out.specs.Answers.{Answers};
ghost use Rattle.debug_out.specs.Grouped.{IsGrouped};
ghost use Rattle.debug_out.specs.Tails.{tail_bytes, bytes_told, IsWhole};
ghost use Rattle.debug_out.specs.Windows.{Stands, LiveOffsets, DeadOffsets};

use crate::division::write;
use crate::error::DebugError;
use crate::faults::debugs;
use crate::groups::{Groups, grouped, names_of, short_rows};
use crate::measure::sections_len;
use crate::pieces::{Piece, pieces_of, put_pieces, starts_of};
use crate::places::DebugPlaces;
use crate::refs::DebugRef;
use object_file::Object;
use std::alloc::Global;
use std::thread::Threads;
use wl_base::{Fault, NameTable, OutOfMemory, Seq};
use wl_fan::Workers;

/// The greatest length of an output.
const MOST: u64 = 0x7fff_ffff;

/// The joined sections before they are written.
#[derive(Drop)]
pub struct DebugTail<'a> {
    /// What is written, one behind another.
    pub pieces: Seq<Piece<'a>>,
    /// Where each piece begins.
    pub starts: Seq<u64>,
    /// Where each section begins in its joined section, by its object and its place there.
    pub rows: Seq<Seq<Option<u32>>>,
    /// How many bytes all have.
    pub len: u64,
}

// ---- what is written

/// The joined sections of these names.
fn tail_in<'a>(
    alloc: Global,
    names: &NameTable,
    groups: &Groups<'a>,
) -> Result<DebugTail<'a>, OutOfMemory>
    ensures bytes { IfOk result (λ t. (ds : List Debug) (p : Places) → IsGrouped names.now.names groups.now ds → AllByRecursion Stands ds → tail_bytes p t ≡ flat_map (section_of ds p) names.now.names) }
    ensures whole { IfOk result (λ t. (ds : List Debug) → IsGrouped names.now.names groups.now ds → AllByRecursion Stands ds → IsWhole t) }
{
    let pieces = pieces_of(alloc, names, groups)?;
    let placed = starts_of(alloc, pieces.as_slice())?;
    let rows = short_rows(alloc, groups.rows.as_slice())?;
    Ok(DebugTail {
        pieces,
        starts: placed.0,
        rows,
        len: placed.1,
    })
}

/// The joined sections of these names, unless an output of so many bytes is too long with them.
fn judged<'a>(
    alloc: Global,
    names: &NameTable,
    groups: &Groups<'a>,
    length: u64,
) -> Result<DebugTail<'a>, DebugError>
    ensures told { (ds : List Debug) (p : Places) → names.now.names ≡ names_of ds → IsGrouped names.now.names groups.now ds → AllByRecursion Stands ds
        → Answers (bytes_told p result) (unless (length_fault (length + list_length (tail_of ds p))) (tail_of ds p)) }
    ensures whole { IfOk result (λ t. (ds : List Debug) → IsGrouped names.now.names groups.now ds → AllByRecursion Stands ds → IsWhole t) }
{
    let Some(len) = sections_len(names, groups.lengths.as_slice()) else {
        return Err(DebugError::OutOfMemory);
    };
    let Some(needed) = length.checked_add(len) else {
        return Err(DebugError::OutOfMemory);
    };
    if needed > MOST {
        return Err(DebugError::Refused(Fault::DebugTooLong { needed }));
    }
    let tail = tail_in(alloc, names, groups)?;
    Ok(tail)
}

/// The joined sections behind an output of so many bytes, or that they make it too long.
fn tail_of<'a>(
    alloc: Global,
    objects: usize,
    length: u64,
    all: &[DebugRef<'a>],
) -> Result<DebugTail<'a>, DebugError>
    requires { AllByRecursion Stands (map debug_seen all.now) }
    ensures told { (p : Places) → Answers (bytes_told p result) (unless (length_fault (length + list_length (tail_of (map debug_seen all.now) p))) (tail_of (map debug_seen all.now) p)) }
    ensures whole { IfOk result IsWhole }
{
    let names = names_of(alloc, all)?;
    let groups = grouped(alloc, &names, objects, all)?;
    judged(alloc, &names, &groups, length)
}

/// What stands behind an output of `places.length` bytes, before it is written; or the first fault.
/// The lists of places aren't looked at yet.
#[tactic(auto, unfolding(debug_rules::specs::Joined::joined))]
fn prepared<'a>(
    alloc: Global,
    objects: &'a [Object],
    files: &'a [Seq<u8>],
    places: &DebugPlaces,
) -> Result<DebugTail<'a>, DebugError>
    ensures told { (p : Places) → Answers (bytes_told p result) (joined places.now.length (inputs_of files.now objects.now places.now.inputs) p) }
    ensures whole { IfOk result IsWhole }
{
    let all = debugs(alloc, objects, files, places.inputs.as_slice())?;
    let tail = tail_of(alloc, objects.len(), places.length, all.as_slice())?;
    Ok(tail)
}

// ---- writing

/// So many bytes.
fn room(alloc: Global, len: u64) -> Result<Vec<u8>, OutOfMemory>
    ensures { IfOk result (λ bytes. list_length bytes.items ≡ len) }
{
    Ok(vec![in alloc; 0u8; len as usize]?)
}

/// The bytes of the joined sections.
fn written(
    alloc: Global,
    places: &DebugPlaces,
    tail: &DebugTail<'_>,
) -> Result<Seq<u8>, OutOfMemory>
    requires { IsWhole tail.now }
    ensures { IfOk result (λ bytes. bytes ≡ tail_bytes (places_of places.now) tail.now) }
{
    let mut bytes = room(alloc, tail.len)?;
    put_pieces(
        places,
        tail.rows.as_slice(),
        tail.pieces.as_slice(),
        bytes.as_mut_slice(),
    );
    Ok(Seq::from_vec(bytes))
}

/// The same, written by several workers.
fn written_by<R: Threads + Sync>(
    rt: &R,
    alloc: Global,
    places: &DebugPlaces,
    tail: &DebugTail<'_>,
    workers: Workers,
) -> Result<Seq<u8>, OutOfMemory>
    requires { IsWhole tail.now }
    ensures { IfOk result (λ bytes. bytes ≡ tail_bytes (places_of places.now) tail.now) }
{
    let mut bytes = room(alloc, tail.len)?;
    write(
        rt,
        places,
        tail.rows.as_slice(),
        tail.pieces.as_slice(),
        tail.starts.as_slice(),
        tail.len,
        workers,
        bytes.as_mut_slice(),
    );
    Ok(Seq::from_vec(bytes))
}

/// The same behind the objects' faults.
fn joined(
    alloc: Global,
    objects: &[Object],
    files: &[Seq<u8>],
    places: &DebugPlaces,
) -> Result<Seq<u8>, DebugError>
    ensures { Answers result (joined places.now.length (inputs_of files.now objects.now places.now.inputs) (places_of places.now)) }
{
    let tail = prepared(alloc, objects, files, places)?;
    let bytes = written(alloc, places, &tail)?;
    Ok(bytes)
}

fn joined_by<R: Threads + Sync>(
    rt: &R,
    alloc: Global,
    objects: &[Object],
    files: &[Seq<u8>],
    places: &DebugPlaces,
    workers: Workers,
) -> Result<Seq<u8>, DebugError>
    ensures { Answers result (joined places.now.length (inputs_of files.now objects.now places.now.inputs) (places_of places.now)) }
{
    let tail = prepared(alloc, objects, files, places)?;
    let bytes = written_by(rt, alloc, places, &tail, workers)?;
    Ok(bytes)
}

/// The debug sections of the objects, joined, as they stand behind an output of `places.length`
/// bytes: one custom section for each name, in the order in which the names first come.
///
/// It asks for nothing: an object without a span has no sections, and what has no place is dead.
///
/// # Errors
///
/// `Refused` with `BadDebug`, the first section by object and by place whose relocations are broken;
/// else with `DebugTooLong`, where the output would have more than 2^31 - 1 bytes. `OutOfMemory`.
pub fn join_debug(
    alloc: Global,
    objects: &[Object],
    files: &[Seq<u8>],
    places: &DebugPlaces,
) -> Result<Seq<u8>, DebugError>
    ensures exact { Answers result (joined places.now.length (inputs_of files.now objects.now places.now.inputs) (places_of places.now)) }
    // Where a debug section names a place in a live function, the joined one names that place in the code.
    ensures live { IfOk result (LiveOffsets (inputs_of files.now objects.now places.now.inputs) (places_of places.now)) }
    // Where it names one in a function that isn't there, the dead word stands in the joined one.
    ensures dead { IfOk result (DeadOffsets (inputs_of files.now objects.now places.now.inputs) (places_of places.now)) }
{
    let tail = joined(alloc, objects, files, places)?;
    Ok(tail)
}

/// The same bytes, written by several workers: each has a run of the contributions.
///
/// # Errors
///
/// Those of `join_debug`.
pub fn join_debug_by<R: Threads + Sync>(
    rt: &R,
    alloc: Global,
    objects: &[Object],
    files: &[Seq<u8>],
    places: &DebugPlaces,
    workers: Workers,
) -> Result<Seq<u8>, DebugError>
    ensures exact { Answers result (joined places.now.length (inputs_of files.now objects.now places.now.inputs) (places_of places.now)) }
    ensures live { IfOk result (LiveOffsets (inputs_of files.now objects.now places.now.inputs) (places_of places.now)) }
    ensures dead { IfOk result (DeadOffsets (inputs_of files.now objects.now places.now.inputs) (places_of places.now)) }
{
    let tail = joined_by(rt, alloc, objects, files, places, workers)?;
    Ok(tail)
}
