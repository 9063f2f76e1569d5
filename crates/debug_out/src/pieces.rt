//! The joined sections as pieces that are written one behind another: what stands before the
//! contributions of a name, and each contribution.
ghost use Rattle.std.specs.Prelude.{◌≡◌, ◌++◌, ◌∷◌, ◌≤◌, ◌+◌, ◌<◌, [], List, length, map, flat_map, slice_index_or, sum_by, IfOk, OnOk};
ghost use Rattle.std.specs.List.{AllByRecursion};
ghost use Rattle.leb_codec.specs.Shortest.{u32 as shortest_u32};
ghost use Rattle.debug_rules.specs.Faults.{Debug};
ghost use Rattle.debug_rules.specs.Joined.{Places, section_of};
ghost use Rattle.debug_out.specs.declared.pieces.Piece.TheVariants.{Content as ContentOf, Head as HeadOf};
ghost use Rattle.debug_out.specs.Grouped.{IsGrouped, payload_len};
ghost use Rattle.debug_out.specs.Inputs.{places_of};
ghost use Rattle.debug_out.specs.Pieces.{head_bytes, piece_bytes, pieces_bytes, piece_len, pieces_len, Fits, starts_from};
ghost use Rattle.debug_out.specs.Windows.{Stands};
ghost use Rattle.image_emit.specs.Put.{IsPut};

use crate::groups::Groups;
use crate::measure::{payload_len, u32_size};
use crate::places::DebugPlaces;
use crate::refs::DebugRef;
use crate::windows::put_content;
use leb_codec::write_u32;
use std::alloc::Global;
use wl_base::{NameTable, OutOfMemory, Seq};

/// What is written at once.
#[derive(Clone, Copy)]
pub enum Piece<'a> {
    /// What stands before the contributions of a name.
    Head {
        name: &'a [u8],
        /// The length of the name.
        own: u32,
        /// The length of the section's payload.
        payload: u32,
    },
    /// A contribution.
    Content(DebugRef<'a>),
}

// ---- which pieces there are

/// Puts what stands before contributions of so many bytes.
fn push_head<'a>(name: &'a [u8], len: u64, out: &mut Seq<Piece<'a>>) -> Result<(), OutOfMemory>
    ensures { OnOk result (out.new ≡ out.old ++ HeadOf name.entry (length name.now) (payload_len name.now len) ∷ []) }
{
    let Some(payload) = payload_len(name, len) else {
        return Err(OutOfMemory);
    };
    let Ok(payload) = u32::try_from(payload) else {
        return Err(OutOfMemory);
    };
    let Ok(own) = u32::try_from(name.len() as u64) else {
        return Err(OutOfMemory);
    };
    out.push(Piece::Head { name, own, payload })?;
    Ok(())
}

fn push_members<'a>(members: &[DebugRef<'a>], out: &mut Seq<Piece<'a>>) -> Result<(), OutOfMemory>
    ensures { OnOk result (out.new ≡ out.old ++ map ContentOf members.now) }
{
    for d in members {
        out.push(Piece::Content(*d))?;
    }
    Ok(())
}

/// The length of this number.
fn length_at(lengths: &[u64], n: u32) -> u64
    ensures { result ≡ slice_index_or lengths.now n 0 }
{
    match lengths.get(n as usize) {
        Some(len) => *len,
        None => 0,
    }
}

/// The sections of this number.
fn members_at<'a, 'b>(members: &'b [Seq<DebugRef<'a>>], n: usize) -> &'b [DebugRef<'a>]
    requires { n < length members.now }
    ensures { result.now ≡ slice_index_or members.now n [] }
{
    members[n].as_slice()
}

/// Puts the pieces of the name of this number, which is lent by the first section that has it.
fn push_section<'a>(
    names: &NameTable,
    groups: &Groups<'a>,
    n: u32,
    out: &mut Seq<Piece<'a>>,
) -> Result<(), OutOfMemory>
    requires { n < length names.now.names }
    ensures bytes { OnOk result ((ds : List Debug) (p : Places) → IsGrouped names.now.names groups.now ds → AllByRecursion Stands ds
        → pieces_bytes groups.now.rows.items p out.new ≡ pieces_bytes groups.now.rows.items p out.old ++ section_of ds p (slice_index_or names.now.names n [])) }
    ensures fit { OnOk result ((ds : List Debug) → IsGrouped names.now.names groups.now ds → AllByRecursion Stands ds → AllByRecursion Fits out.old → AllByRecursion Fits out.new) }
{
    let name = names.name(n);
    let len = length_at(groups.lengths.as_slice(), n);
    let lists = groups.members.as_slice();
    if n as usize >= lists.len() {
        return Err(OutOfMemory);
    }
    let members = members_at(lists, n as usize);
    let Some(first) = members.first() else {
        return Err(OutOfMemory);
    };
    if first.name != name {
        return Err(OutOfMemory);
    }
    push_head(first.name, len, out)?;
    push_members(members, out)?;
    Ok(())
}

/// The pieces of all joined sections.
pub fn pieces_of<'a>(
    alloc: Global,
    names: &NameTable,
    groups: &Groups<'a>,
) -> Result<Seq<Piece<'a>>, OutOfMemory>
    ensures bytes { IfOk result (λ qs. (ds : List Debug) (p : Places) → IsGrouped names.now.names groups.now ds → AllByRecursion Stands ds
        → pieces_bytes groups.now.rows.items p qs ≡ flat_map (section_of ds p) names.now.names) }
    ensures fit { IfOk result (λ qs. (ds : List Debug) → IsGrouped names.now.names groups.now ds → AllByRecursion Stands ds → AllByRecursion Fits qs) }
{
    let mut out = Seq::new(alloc);
    for n in 0..names.count() {
        push_section(names, groups, n, &mut out)?;
    }
    Ok(out)
}

/// How many bytes a piece has.
fn piece_len(q: &Piece<'_>) -> u64
    ensures { result ≡ piece_len q.now }
{
    match q {
        Piece::Head { name, own, payload } => {
            1 + u32_size(u64::from(*payload)) + u32_size(u64::from(*own)) + name.len() as u64
        }
        Piece::Content(d) => d.content.len() as u64,
    }
}

/// Where each piece begins, and how many bytes all have.
pub fn starts_of(alloc: Global, pieces: &[Piece<'_>]) -> Result<(Seq<u64>, u64), OutOfMemory>
    ensures { IfOk result (λ x. (x.0 ≡ starts_from 0 pieces.now) × (x.1 ≡ pieces_len pieces.now)) }
{
    let mut starts = Seq::with_room(alloc, pieces.len())?;
    let mut at = 0u64;
    for q in pieces {
        starts.push(at)?;
        let Some(end) = at.checked_add(piece_len(q)) else {
            return Err(OutOfMemory);
        };
        at = end;
    }
    Ok((starts, at))
}

// ---- how they are written

fn put_bytes(bytes: &[u8], at: usize, out: &mut [u8]) -> usize
    requires { at + length bytes.now ≤ length out.old }
    ensures { IsPut out.old at bytes.now result out.new }
{
    let end = at + bytes.len();
    out[at..end].copy_from_slice(bytes);
    end
}

fn put_number(n: u32, at: usize, out: &mut [u8]) -> usize
    requires { at + length (shortest_u32 n) ≤ length out.old }
    ensures { IsPut out.old at (shortest_u32 n) result out.new }
{
    let mut text = [0; 10];
    let len = write_u32(n, &mut text);
    put_bytes(&text[..len], at, out)
}

fn put_head(name: &[u8], own: u32, payload: u32, at: usize, out: &mut [u8]) -> usize
    requires { at + length (head_bytes name.now own payload) ≤ length out.old }
    ensures { IsPut out.old at (head_bytes name.now own payload) result out.new }
{
    let at = put_bytes(&[0], at, out);
    let at = put_number(payload, at, out);
    let at = put_number(own, at, out);
    put_bytes(name, at, out)
}

/// Writes a piece at a place, and tells where it ends.
fn put_piece(
    places: &DebugPlaces,
    rows: &[Seq<Option<u32>>],
    q: &Piece<'_>,
    at: usize,
    out: &mut [u8],
) -> usize
    requires fits { Fits q.now }
    requires room { at + piece_len q.now ≤ length out.old }
    ensures { IsPut out.old at (piece_bytes rows.now (places_of places.now) q.now) result out.new }
{
    match q {
        Piece::Head { name, own, payload } => put_head(name, *own, *payload, at, out),
        Piece::Content(d) => {
            let end = at + d.content.len();
            put_content(places, rows, d, &mut out[at..end]);
            end
        }
    }
}

/// Writes pieces over as many bytes.
pub fn put_pieces(
    places: &DebugPlaces,
    rows: &[Seq<Option<u32>>],
    pieces: &[Piece<'_>],
    out: &mut [u8],
)
    requires fit { AllByRecursion Fits pieces.now }
    requires room { length out.old ≡ pieces_len pieces.now }
    ensures { out.new ≡ pieces_bytes rows.now (places_of places.now) pieces.now }
{
    let mut at = 0;
    for q in pieces {
        at = put_piece(places, rows, q, at, out);
    }
}
