//! A library without an index, completed.
ghost use Rattle.std.specs.Prelude.{◌≡◌, ◌<◌, ◌^◌, All, Err, IfOk, IsTrue};
ghost use Rattle.lib_index.specs.Reading.{library_of};
ghost use Rattle.library_indexer.specs.Indexed.{entries_in as entries_in_library, fits as fits_of, completed as completed_of, with_index as with_index_of};
ghost use Rattle.wl_base.specs.declared.fault.LibFault.TheVariants as faults;

use crate::entries::{Entries, entries_of};
use crate::index::{EMPTY_SIZE, HEADER_LEN, data_size, has_index, with_entries};
use crate::members::members_of;
use lib_index::{LibError, read_index};
use std::alloc::Global;
use wl_base::{LibFault, OutOfMemory, Seq};

/// The least number of bytes that no library may have.
const TOO_LONG: u128 = 1 << 32;

/// Whether a library with an index of this size has fewer than 2^32 bytes.
fn fits(size: u128, bytes: &[u8]) -> bool
    requires { size < 2 ^ 69 }
    ensures { result ≡ fits_of size bytes.now }
{
    bytes.len() as u128 + (HEADER_LEN as u128 + size) < TOO_LONG
}

/// What the index of a library gives, which lacks one.
#[tactic(auto, using(crate::proofs::Read::members_lie, crate::proofs::Read::places_are_small))]
fn entries_in(alloc: Global, bytes: &[u8]) -> Result<Entries, OutOfMemory>
    requires lacks { library_of bytes.now ≡ Err faults.NoIndex }
    requires short { IsTrue (fits_of 4 bytes.now) }
    ensures value { IfOk result (λ e. e ≡ entries_in_library bytes.now) }
    ensures within { IfOk result (λ e. All (λ p. p < 2 ^ 32) e.places) }
{
    let members = members_of(alloc, bytes)?;
    entries_of(alloc, bytes, members.as_slice())
}

/// The library with an index that gives these entries, or as it was where that can't be.
fn completed(alloc: Global, bytes: Seq<u8>, entries: &Entries) -> Result<Seq<u8>, OutOfMemory>
    requires { All (λ p. p < 2 ^ 32) entries.now.places }
    ensures { IfOk result (λ whole. whole ≡ completed_of entries.now bytes) }
{
    let places = entries.places.as_slice();
    let text = entries.text.as_slice();
    if entries.told && fits(data_size(places, text), bytes.as_slice()) {
        return with_entries(alloc, places, text, bytes.as_slice());
    }
    Ok(bytes)
}

/// The library with an index, which it lacks.
fn give_index(alloc: Global, bytes: Seq<u8>) -> Result<Seq<u8>, OutOfMemory>
    requires lacks { library_of bytes ≡ Err faults.NoIndex }
    requires short { IsTrue (fits_of 4 bytes) }
    ensures { IfOk result (λ whole. whole ≡ completed_of (entries_in_library bytes) bytes) }
{
    let entries = entries_in(alloc, bytes.as_slice())?;
    completed(alloc, bytes, &entries)
}

/// A library without an index as `ranlib` completes it: with an index that gives for each member the
/// names that it defines for other objects. Other bytes stay as they are, and so does a library of
/// which a member begins as an object and can't be read, or that would have 2^32 bytes or more.
///
/// # Errors
/// Want of memory.
#[tactic(auto, unfolding(crate::specs::Indexed::with_index), using(crate::proofs::Read::long_stays, crate::proofs::Cut::indexed_stays))]
pub fn with_index(alloc: Global, bytes: Seq<u8>) -> Result<Seq<u8>, OutOfMemory>
    ensures { IfOk result (λ whole. whole ≡ with_index_of bytes) }
{
    // nearly all libraries have an index, which isn't read twice
    if has_index(bytes.as_slice()) || !fits(EMPTY_SIZE as u128, bytes.as_slice()) {
        return Ok(bytes);
    }
    match read_index(alloc, bytes.as_slice()) {
        Ok(_) => Ok(bytes),
        Err(LibError::Refused(LibFault::NoIndex)) => give_index(alloc, bytes),
        Err(
            LibError::Refused(
                LibFault::NotLibrary
                | LibFault::Thin
                | LibFault::BadHeader(_)
                | LibFault::BadIndex(_),
            ),
        ) => Ok(bytes),
        Err(LibError::OutOfMemory) => Err(OutOfMemory),
    }
}
