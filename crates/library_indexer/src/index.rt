//! Writing the index in front of the other members.
ghost use Rattle.std.specs.Prelude.{◌≡◌, ◌<◌, ◌^◌, ◌++◌, drop, OnOk, IfOk, All, decimal};
ghost use Rattle.std.specs.List.{flat_map};
ghost use Rattle.library_indexer.specs.Index.{word as word_of, moved_word, unfilled_size as unfilled_size_of, data_size as data_size_of, filling, spaced, index_header, index_data, has_index as has_index_of, with_entries as with_entries_of};

use std::alloc::Global;
use wl_base::{OutOfMemory, Seq};

/// The bytes in front of the first header.
const MAGIC: [u8; 8] = *b"!<arch>\n";

/// How long a header is.
pub const HEADER_LEN: u64 = 60;

/// The size of an index that gives nothing: its count alone.
pub const EMPTY_SIZE: u64 = 4;

/// The index's header up to its size: its name, and 0 as date, owner, group and mode.
const FIELDS: [u8; 48] = *b"/               0           0     0     0       ";

/// Puts four bytes at the end, the highest first.
fn put_word(to: &mut Seq<u8>, n: u64) -> Result<(), OutOfMemory>
    ensures { OnOk result (to.new ≡ to.old ++ word_of n) }
{
    let bytes = n.to_be_bytes();
    to.extend_from_slice(&bytes[4..])
}

/// Puts the places at the end, once the headers have moved.
fn put_places(to: &mut Seq<u8>, size: u64, places: &[u64]) -> Result<(), OutOfMemory>
    requires short { size < 2 ^ 32 }
    requires places { All (λ p. p < 2 ^ 32) places.now }
    ensures { OnOk result (to.new ≡ to.old ++ flat_map (moved_word size) places.now) }
{
    for place in places {
        put_word(to, *place + (HEADER_LEN + size))?;
    }
    Ok(())
}

/// How long the index's data are without what fills them up.
fn unfilled_size(places: &[u64], text: &[u8]) -> u128
    ensures value { result ≡ unfilled_size_of places.now text.now }
    ensures short { result < 2 ^ 68 }
{
    EMPTY_SIZE as u128 + 4 * places.len() as u128 + text.len() as u128
}

/// How long the index's data are.
pub fn data_size(places: &[u64], text: &[u8]) -> u128
    ensures value { result ≡ data_size_of places.now text.now }
    ensures short { result < 2 ^ 69 }
{
    let unfilled = unfilled_size(places, text);
    unfilled + unfilled % 2
}

/// Puts a byte 0 behind data of odd size.
fn put_filling(to: &mut Seq<u8>, size: u128) -> Result<(), OutOfMemory>
    ensures { OnOk result (to.new ≡ to.old ++ filling size) }
{
    if size % 2 == 1 {
        return to.push(0);
    }
    Ok(())
}

/// Puts the index's data at the end.
#[tactic(auto, unfolding(crate::specs::Index::index_data))]
fn put_data(to: &mut Seq<u8>, places: &[u64], text: &[u8]) -> Result<(), OutOfMemory>
    requires short { data_size_of places.now text.now < 2 ^ 32 }
    requires places { All (λ p. p < 2 ^ 32) places.now }
    ensures { OnOk result (to.new ≡ to.old ++ index_data places.now text.now) }
{
    put_word(to, places.len() as u64)?;
    put_places(to, data_size(places, text) as u64, places)?;
    to.extend_from_slice(text)?;
    put_filling(to, unfilled_size(places, text))
}

/// Puts a size at the end, filled up with spaces to ten bytes.
fn put_size(to: &mut Seq<u8>, size: u64) -> Result<(), OutOfMemory>
    ensures { OnOk result (to.new ≡ to.old ++ spaced (decimal size)) }
{
    let mut buffer = itoa::Buffer::new();
    let digits = buffer.format(size).as_bytes();
    let spaces = b"          ".as_slice();
    to.extend_from_slice(digits)?;
    to.extend_from_slice(&spaces[digits.len().min(10)..])
}

/// Puts the index's header at the end.
#[tactic(auto, unfolding(crate::specs::Index::index_header))]
fn put_header(to: &mut Seq<u8>, size: u64) -> Result<(), OutOfMemory>
    ensures { OnOk result (to.new ≡ to.old ++ index_header size) }
{
    to.extend_from_slice(FIELDS.as_slice())?;
    put_size(to, size)?;
    to.extend_from_slice([0x60, 0x0a].as_slice())
}

/// The members of an archive, without its magic.
fn members_in(bytes: &[u8]) -> &[u8]
    ensures { result.now ≡ drop 8 bytes.now }
{
    if bytes.len() < 8 {
        return &bytes[bytes.len()..];
    }
    &bytes[8..]
}

/// Whether the first member of an archive is an index, by its name.
pub fn has_index(bytes: &[u8]) -> bool
    ensures { result ≡ has_index_of bytes.now }
{
    let members = members_in(bytes);
    members.len() >= 16 && &members[..16] == b"/               ".as_slice()
}

/// The library with an index that gives these places for the names of this text.
#[tactic(auto, unfolding(crate::specs::Index::with_entries))]
pub fn with_entries(
    alloc: Global,
    places: &[u64],
    text: &[u8],
    bytes: &[u8],
) -> Result<Seq<u8>, OutOfMemory>
    requires short { data_size_of places.now text.now < 2 ^ 32 }
    requires places { All (λ p. p < 2 ^ 32) places.now }
    ensures { IfOk result (λ whole. whole ≡ with_entries_of places.now text.now bytes.now) }
{
    let size = data_size(places, text) as u64;
    let members = members_in(bytes);
    let len = (HEADER_LEN + size) as usize;
    let mut to = Seq::with_room(alloc, len.saturating_add(bytes.len()))?;
    to.extend_from_slice(MAGIC.as_slice())?;
    put_header(&mut to, size)?;
    put_data(&mut to, places, text)?;
    to.extend_from_slice(members)?;
    Ok(to)
}
