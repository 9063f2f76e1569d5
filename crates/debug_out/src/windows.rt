//! What is written into the windows of debug sections. It takes no memory and can't fail, so that
//! workers may write them.
ghost use Rattle.std.specs.Prelude.{◌≡◌, ◌+◌, ◌≤◌, [], length, map, slice_get, slice_index_or};
ghost use Rattle.reloc_apply.specs.Windows.{over, little, filled};
ghost use Rattle.debug_rules.specs.Joined.{dead_word, place_at, word_of, section_index, value_of, patch_for, written};
ghost use Rattle.debug_out.specs.Inputs.{places_of};
ghost use Rattle.debug_out.specs.Refs.{debug_seen, entries_from, entries_of};
ghost use Rattle.debug_out.specs.Windows.{Stands, InBounds};

use crate::entries::front_of;
use crate::places::DebugPlaces;
use crate::refs::DebugRef;
use object_file::Symbols;
use reloc_section::{Reloc, reloc_at};
use wl_base::Seq;

/// What stands for what isn't there. In lists of ranges and of locations the greatest number begins
/// another base (DWARF 4, 2.6.2 and 2.17.3).
fn dead_word(name: &[u8]) -> u32
    ensures { result ≡ dead_word name.now }
{
    if name == b".debug_ranges".as_slice() || name == b".debug_loc".as_slice() {
        0xffff_fffe
    } else {
        0xffff_ffff
    }
}

/// The list of an object, none where the lists have none.
fn list_of(lists: &[Seq<Option<u32>>], object: u32) -> &[Option<u32>]
    ensures { result.now ≡ slice_index_or lists.now object [] }
{
    match lists.get(object as usize) {
        Some(list) => list.as_slice(),
        None => &[],
    }
}

/// The place of an item of an object, where the lists have one.
fn place_at(lists: &[Seq<Option<u32>>], object: u32, item: u32) -> Option<u32>
    ensures { result ≡ place_at lists.now object item }
{
    match list_of(lists, object).get(item as usize) {
        Some(place) => *place,
        None => None,
    }
}

/// A place and an addend, modulo 2^32; or the dead word of a section of this name.
fn word_of(name: &[u8], addend: i32, place: Option<u32>) -> u32
    ensures { result ≡ word_of (dead_word name.now) addend place }
{
    match place {
        None => dead_word(name),
        Some(n) => {
            let value = i64::from(n) + i64::from(addend);
            if value < 0 {
                (value + 0x1_0000_0000) as u32
            } else {
                (value % 0x1_0000_0000) as u32
            }
        }
    }
}

/// The section that a section symbol names.
fn section_index(symbols: &Symbols, k: u32) -> u32
    ensures { result ≡ section_index (slice_get symbols.now k) }
{
    match symbols.get(k as usize) {
        Some(s) => s.index,
        None => 0,
    }
}

/// What a relocation of a section writes. `rows` tells where sections begin.
fn value_of(places: &DebugPlaces, rows: &[Seq<Option<u32>>], d: &DebugRef<'_>, r: &Reloc) -> u32
    ensures { result ≡ value_of (place_at rows.now d.now.object) (places_of places.now) (debug_seen d.now) r.now }
{
    match r.kind {
        8 => {
            let body = place_at(places.bodies.as_slice(), d.object, r.index);
            word_of(d.name, r.addend, body)
        }
        9 => {
            let begin = place_at(rows, d.object, section_index(d.symbols, r.index));
            word_of(d.name, r.addend, begin)
        }
        5 => {
            let address = place_at(places.addresses.as_slice(), d.object, r.index);
            word_of(d.name, r.addend, address)
        }
        2 => word_of(
            d.name,
            0,
            place_at(places.slots.as_slice(), d.object, r.index),
        ),
        _ => word_of(
            d.name,
            0,
            place_at(places.globals.as_slice(), d.object, r.index),
        ),
    }
}

/// Writes a word at a place.
fn put_word(at: usize, value: u32, out: &mut [u8])
    requires { at + 4 ≤ length out.old }
    ensures is { out.new ≡ over at (little value) out.old }
    ensures len { length out.new ≡ length out.old }
{
    out[at..at + 4].copy_from_slice(value.to_le_bytes().as_slice());
}

/// Writes the windows of so many entries, read where they stand, into a contribution.
fn fill_entries(
    places: &DebugPlaces,
    rows: &[Seq<Option<u32>>],
    d: &DebugRef<'_>,
    count: u32,
    end: usize,
    entries: &[u8],
    out: &mut [u8],
)
    requires { InBounds (length out.old) (entries_from count end entries.now) }
    ensures { out.new ≡ filled (map (patch_for (place_at rows.now d.now.object) (places_of places.now) (debug_seen d.now)) (entries_from count end entries.now)) out.old }
{
    let mut left = entries;
    for _ in 0..count {
        let (r, after) = match reloc_at(end, left) {
            Ok(x) => x,
            Err(_) => return,
        };
        let value = value_of(places, rows, d, &r);
        put_word(r.offset as usize, value, out);
        left = after;
    }
}

/// Writes the windows of a section into its contribution.
fn fill(places: &DebugPlaces, rows: &[Seq<Option<u32>>], d: &DebugRef<'_>, out: &mut [u8])
    requires { InBounds (length out.old) (entries_of d.now.relocs.now) }
    ensures { out.new ≡ filled (map (patch_for (place_at rows.now d.now.object) (places_of places.now) (debug_seen d.now)) (entries_of d.now.relocs.now)) out.old }
{
    let front = front_of(d.relocs);
    fill_entries(places, rows, d, front.0, d.relocs.len(), front.1, out);
}

/// Writes a contribution, its windows among it, over as many bytes.
pub fn put_content(
    places: &DebugPlaces,
    rows: &[Seq<Option<u32>>],
    d: &DebugRef<'_>,
    out: &mut [u8],
)
    requires stands { Stands (debug_seen d.now) }
    requires room { length out.old ≡ length d.now.content.now }
    ensures { out.new ≡ written (place_at rows.now d.now.object) (places_of places.now) (debug_seen d.now) }
{
    out.copy_from_slice(d.content);
    fill(places, rows, d, out);
}
