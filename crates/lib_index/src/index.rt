//! The index of a library.
ghost use Rattle.std.specs.Prelude.{◌≡◌, ◌==◌, ◌^◌, ◌<◌, ◌≤◌, ◌+◌, length, Ok, Some, All, IsTrue, option_map, position, slice_get};
ghost use Rattle.std.specs.List.Sorted.{IsStrictlyIncreasing};
ghost use Rattle.lib_index.specs.Library.{headers};
ghost use Rattle.lib_index.specs.Reading.{Reads, offers, Answers, word_at, number_at, numbers_at, counted_index, index_at, first_index, entries_of};
ghost use Rattle.lib_index.specs.Table.{shown};

use crate::fault::LibError;
use crate::members::{Member, Role};
use crate::table::{Table, table_of};
use indexmap::IndexMap;
use std::alloc::Global;
use wl_base::{LibFault, Seq};

/// The big-endian number of four bytes at the front, and the bytes after it.
fn word_at(bytes: &[u8]) -> Option<(u32, &[u8])>
    ensures { option_map (λ x. (x.0, x.1.now)) result ≡ word_at bytes.now }
{
    let [a, b, c, d, rest @ ..] = bytes else {
        return None;
    };
    let high = 0x100 * u32::from(*a) + u32::from(*b);
    let low = 0x100 * u32::from(*c) + u32::from(*d);
    Some((0x1_0000 * high + low, rest))
}

/// Whether the header of the member of a number stands at a place.
fn stands_at(places: &[u64], number: usize, place: u64) -> bool
    ensures { IsTrue result → slice_get places.now number ≡ Some place }
{
    match places.get(number) {
        Some(other) => *other == place,
        None => false,
    }
}

/// The number of the member whose header stands at a place. Most names are of the member of the name before, which has the number
/// `near`, or of the next one.
fn number_of(places: &[u64], near: usize, place: u32) -> Option<usize>
    requires { IsStrictlyIncreasing places.now }
    ensures { result ≡ position (λ p. p == place) places.now }
{
    let place = place as u64;
    if stands_at(places, near, place) {
        return Some(near);
    }
    let next = near.saturating_add(1);
    if stands_at(places, next, place) {
        return Some(next);
    }
    places.binary_search(&place).ok()
}

/// The number of the member whose header stands at the place that is at the front, and the bytes
/// after it.
#[tactic(auto, unfolding(crate::specs::Reading::number_at))]
fn number_at<'a>(places: &[u64], near: usize, bytes: &'a [u8]) -> Result<(u32, &'a [u8]), LibFault>
    requires rising { IsStrictlyIncreasing places.now }
    requires few { length places.now < 2 ^ 32 }
    ensures { Reads (λ x. (x.0, x.1.now)) result (number_at places.now bytes.now) }
{
    let Some((place, rest)) = word_at(bytes) else {
        return Err(LibFault::BadIndex(1));
    };
    let Some(number) = number_of(places, near, place) else {
        return Err(LibFault::BadIndex(2));
    };
    Ok((number as u32, rest))
}

/// The numbers of so many members.
fn numbers_at(alloc: Global, places: &[u64], count: u32, bytes: &[u8]) -> Result<Seq<u32>, LibError>
    requires rising { IsStrictlyIncreasing places.now }
    requires few { length places.now < 2 ^ 32 }
    ensures { Answers (λ x. x) result (numbers_at places.now count bytes.now) }
{
    let mut numbers = Seq::new(alloc);
    let mut near = 0;
    let mut rest = bytes;
    for _ in 0..count {
        let (number, after) = number_at(places, near, rest)?;
        numbers.push(number)?;
        near = number as usize;
        rest = after;
    }
    Ok(numbers)
}

/// What is offered by the places and the names, of which there are to be so many.
#[tactic(auto, unfolding(crate::specs::Reading::counted_index))]
fn counted_index(alloc: Global, places: &[u64], count: u32, rest: &[u8]) -> Result<Table, LibError>
    requires rising { IsStrictlyIncreasing places.now }
    requires few { length places.now < 2 ^ 32 }
    ensures { Answers shown result (offers (counted_index places.now count rest.now)) }
{
    let size = 4 * count as usize;
    if rest.len() < size {
        return Err(LibError::Refused(LibFault::BadIndex(1)));
    }
    let numbers = numbers_at(alloc, places, count, rest)?;
    table_of(alloc, numbers.as_slice(), &rest[size..])
}

/// What the data of an index offer, the headers of members being at these places.
#[tactic(auto, unfolding(crate::specs::Reading::index_at))]
fn index_at(alloc: Global, places: &[u64], content: &[u8]) -> Result<Table, LibError>
    requires rising { IsStrictlyIncreasing places.now }
    requires few { length places.now < 2 ^ 32 }
    ensures { Answers shown result (offers (index_at places.now content.now)) }
{
    let Some((count, rest)) = word_at(content) else {
        return Err(LibError::Refused(LibFault::BadIndex(1)));
    };
    counted_index(alloc, places, count, rest)
}

/// What the first member of an archive offers, the headers of members being at these places.
fn first_index(
    alloc: Global,
    bytes: &[u8],
    places: &[u64],
    first: &Member,
) -> Result<Table, LibError>
    requires rising { IsStrictlyIncreasing places.now }
    requires few { length places.now < 2 ^ 32 }
    requires within { first.now.span.start + first.now.span.len ≤ length bytes.now }
    ensures { Answers shown result (offers (first_index bytes.now places.now first.now)) }
{
    let Role::Index = first.role else {
        return Err(LibError::Refused(LibFault::NoIndex));
    };
    let content = &bytes[first.span.start as usize..][..first.span.len as usize];
    index_at(alloc, places, content)
}

/// What an archive of these members offers.
pub fn entries_of(
    alloc: Global,
    bytes: &[u8],
    places: &[u64],
    members: &[Member],
) -> Result<Table, LibError>
    requires rising { IsStrictlyIncreasing places.now }
    requires few { length places.now < 2 ^ 32 }
    requires within { All (λ m. m.span.start + m.span.len ≤ length bytes.now) members.now }
    requires are { places.now ≡ headers members.now }
    ensures { Answers shown result (offers (entries_of bytes.now members.now)) }
{
    match members {
        [] => Ok(IndexMap::new(alloc)),
        [first, ..] => first_index(alloc, bytes, places, first),
    }
}
