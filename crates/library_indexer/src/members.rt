//! The members of a library that lacks an index.
ghost use Rattle.std.specs.Prelude.{◌≡◌, ◌<◌, ◌≤◌, ◌+◌, ◌^◌, All, Err, IfOk, IsTrue, length, map};
ghost use Rattle.lib_index.specs.Reading.{library_of};
ghost use Rattle.library_indexer.specs.Indexed.{fits, members_of as members_of_library};
ghost use Rattle.library_indexer.specs.Steps.{moved_back};
ghost use Rattle.wl_base.specs.declared.fault.LibFault.TheVariants as faults;

use crate::index::{EMPTY_SIZE, HEADER_LEN, with_entries};
use lib_index::{Library, read_index};
use std::alloc::Global;
use wl_base::{OutOfMemory, Seq, Span};

/// Where the members of a library lay before an index that gives nothing was put in front of them.
#[tactic(auto, using(crate::proofs::Gains::moves_back))]
fn moved_back(alloc: Global, library: &Library) -> Result<Seq<Span>, OutOfMemory>
    ensures { IfOk result (λ members. members ≡ map moved_back library.now.members) }
{
    let mut members = Seq::with_room(alloc, library.count() as usize)?;
    for k in 0..library.count() {
        let member = library.member(k);
        members.push(Span {
            start: member.start.saturating_sub(HEADER_LEN + EMPTY_SIZE),
            len: member.len,
        })?;
    }
    Ok(members)
}

/// Where the data of the members of a library lie, which lacks an index: in a copy with an index that
/// gives nothing the library's reader finds them.
#[tactic(auto, using(crate::proofs::Read::bare_is, crate::proofs::Read::bare_is_short, crate::proofs::Read::found_lie))]
pub fn members_of(alloc: Global, bytes: &[u8]) -> Result<Seq<Span>, OutOfMemory>
    requires lacks { library_of bytes.now ≡ Err faults.NoIndex }
    requires short { IsTrue (fits 4 bytes.now) }
    ensures value { IfOk result (λ members. members ≡ members_of_library bytes.now) }
    ensures within { IfOk result (λ members. All (λ m. m.start + m.len ≤ length bytes.now) members) }
{
    let bare = with_entries(alloc, &[], &[], bytes)?;
    match read_index(alloc, bare.as_slice()) {
        Ok(library) => {
            let members = moved_back(alloc, &library)?;
            Ok(members)
        }
        // it is a library now, so nothing but want of memory
        Err(_) => Err(OutOfMemory),
    }
}
