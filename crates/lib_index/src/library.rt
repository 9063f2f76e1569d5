//! A library, and how it is read.
ghost use Rattle.std.specs.Prelude.{◌≡◌, ◌<◌, ◌≤◌, ◌+◌, ◌^◌, ℕ, List, length, Ok, Err, Some, IfOk, IfSome, All, slice_get, Bool};
ghost use Rattle.wl_base.specs.declared.fault.LibFault.TheVariants as faults;
ghost use Rattle.lib_index.specs.declared.fault.LibError.TheVariants as errors;
ghost use Rattle.lib_index.specs.Library.{Contents, IsLibrary, offer_of};
ghost use Rattle.lib_index.specs.Reading.{Answers, has_magic, library_of};

use crate::fault::LibError;
use crate::index::entries_of;
use crate::magic::after_magic;
use crate::members::{headers, members_at, spans};
use crate::table::{Table, offered};
use std::alloc::Global;
use std::marker::Model;
use wl_base::{Seq, Span};

/// A static library: where the data of its members lie, and which of them it offers for a name.
///
/// The index and the long names are no members here. The others are numbered from 0, in the order of
/// the file.
#[derive(Drop)]
pub struct Library {
    members: Seq<Span>,
    table: Table,
}

impl Model for Library {
    ghost use Rattle.std.specs.Prelude.{◌<◌, ◌^◌, length, All};
    ghost use Rattle.lib_index.specs.Library.{Contents};
    ghost use Rattle.lib_index.specs.Table.{shown};

    ghost Value = { Contents };

    ghost view = { λ l. record { members = l.members; offered = shown l.table } };

    ghost invariant = { λ l. (length l.members < 2 ^ 32) × All (λ o. o.1 < length l.members) (shown l.table) };
}

impl Library {
    /// How many members there are.
    pub fn count(&self) -> u32
        ensures { result ≡ length self.now.members }
    {
        self.members.len() as u32
    }

    /// Where the data of a member lie, from the file's first byte.
    pub fn member(&self, k: u32) -> Span
        requires { k < length self.now.members }
        ensures { Some result ≡ slice_get self.now.members k }
    {
        self.members.as_slice()[k as usize]
    }

    /// The least member that the index gives for the name; `None` exactly where it gives none.
    pub fn offers(&self, name: &[u8]) -> Option<u32>
        ensures value { result ≡ offer_of self.now name.now }
        ensures within { IfSome result (λ k. k < length self.now.members) }
    {
        offered(&self.table, name)
    }
}

#[tactic(auto, unfolding(crate::specs::Reading::library_of))]
fn library_at(alloc: Global, bytes: &[u8]) -> Result<Library, LibError>
    requires { length bytes.now < 2 ^ 32 }
    ensures { Answers (λ x. x) result (library_of bytes.now) }
{
    let rest = after_magic(bytes)?;
    let all = members_at(alloc, bytes.len(), rest)?;
    let places = headers(alloc, all.as_slice())?;
    let table = entries_of(alloc, bytes, places.as_slice(), all.as_slice())?;
    let members = spans(alloc, all.as_slice())?;
    Ok(Library { members, table })
}

/// Reads a library by its index. No member is read.
///
/// The causes for which a file is refused are looked for in this order: it begins with neither
/// magic; it is a thin library; the first header that is broken or whose member runs past the end, by
/// its place; there are members and the first is no index; the index is shorter than its count asks
/// (`BadIndex(1)`), has a place that is no member's header (`BadIndex(2)`), or has fewer names than
/// its count (`BadIndex(3)`).
pub fn read_index(alloc: Global, bytes: &[u8]) -> Result<Library, LibError>
    requires { length bytes.now < 2 ^ 32 }
    // What is read is a library.
    ensures found { IfOk result (λ library. IsLibrary library bytes.now) }
    // A library is read, unless memory runs out.
    ensures only { (library : Contents) → IsLibrary library bytes.now → Answers (λ x. x) result (Ok library) }
    // Which cause it is.
    ensures exact { Answers (λ x. x) result (library_of bytes.now) }
    // It is no library at all only where it has neither magic.
    ensures magical { result ≡ Err (errors.Refused faults.NotLibrary) → has_magic bytes.now ≡ Bool.false }
    // Each member lies in the file.
    ensures within { IfOk result (λ library. All (λ m. m.start + m.len ≤ length bytes.now) library.members) }
{
    library_at(alloc, bytes)
}
