//! The members of whole libraries, where an object of the words has a fault.
ghost use Rattle.std.specs.Prelude.{◌+◌, ◌<◌, ◌≤◌, ◌^◌, All, length};
ghost use Rattle.link_program.specs.object_file.ObjectOf.{object_of};
ghost use Rattle.link_program.specs.lib_index.Library.{bytes_of};
ghost use Rattle.link_program.specs.round_rules.Rounds.{fault_in};
ghost use Rattle.link_program.specs.round_rules.Inputs.{IsRead, members_of};
ghost use Rattle.link_program.specs.Answers.{Stops, Passes};
ghost use Rattle.link_inputs.specs.Reading.{fault_of, least_of, early_members, whole_before, IsLeast};

use crate::reading::ReadError;
use lib_rounds::LibraryFile;
use link_program::LinkError;
use object_file::{ObjectError, read_object};
use std::alloc::Global;
use wl_base::{Fault, InputId, Seq, Span};

/// Reads a member of these bytes, as an input of this number.
fn read_part(alloc: Global, input: InputId, bytes: &[u8], span: Span) -> Result<(), LinkError>
    requires { span.start + span.len ≤ length bytes.now }
    ensures { Passes result (fault_in (object_of input (bytes_of bytes.now span))) }
{
    let part = &bytes[span.start as usize..][..span.len as usize];
    match read_object(alloc, input, part) {
        Ok(_object) => Ok(()),
        Err(ObjectError::Refused(fault)) => Err(LinkError::Refused(fault)),
        Err(ObjectError::OutOfMemory) => Err(LinkError::OutOfMemory),
    }
}

/// Reads the members of a library, up to the first that is no object.
fn read_members(alloc: Global, files: &[Seq<u8>], library: &LibraryFile) -> Result<(), LinkError>
    requires read { IsRead files.now library.now }
    requires few { library.now.first + length library.now.library.members < 2 ^ 32 }
    ensures { Passes result (fault_of (members_of files.now library.now)) }
{
    let bytes = files[library.file as usize].as_slice();
    for member in 0..library.library.count() {
        let span = library.library.member(member);
        read_part(alloc, library.first + member, bytes, span)?;
    }
    Ok(())
}

/// Reads the members of a library that is loaded whole and begins with this input or before it.
fn read_early(
    alloc: Global,
    files: &[Seq<u8>],
    library: &LibraryFile,
    input: InputId,
) -> Result<(), LinkError>
    requires read { IsRead files.now library.now }
    requires few { library.now.first + length library.now.library.members < 2 ^ 32 }
    ensures { Passes result (fault_of (early_members files.now input library.now)) }
{
    if library.whole && library.first <= input {
        read_members(alloc, files, library)
    } else {
        Ok(())
    }
}

/// Reads the members of the whole libraries that begin with this input or before it, up to the first
/// that is no object.
fn read_whole(
    alloc: Global,
    files: &[Seq<u8>],
    libraries: &[LibraryFile],
    input: InputId,
) -> Result<(), LinkError>
    requires read { All (IsRead files.now) libraries.now }
    requires few { All (λ l. l.first + length l.library.members < 2 ^ 32) libraries.now }
    ensures { Passes result (fault_of (whole_before files.now input libraries.now)) }
{
    for at in 0..libraries.len() {
        read_early(alloc, files, &libraries[at], input)?;
    }
    Ok(())
}

/// The least fault, where this one is the least of the objects of the words: that of a member of a
/// whole library that is a lesser input, or else this.
fn least_fault(
    alloc: Global,
    files: &[Seq<u8>],
    libraries: &[LibraryFile],
    input: InputId,
    fault: Fault,
) -> LinkError
    requires read { All (IsRead files.now) libraries.now }
    requires few { All (λ l. l.first + length l.library.members < 2 ^ 32) libraries.now }
    ensures { Stops result (least_of (fault_of (whole_before files.now input libraries.now)) fault) }
{
    match read_whole(alloc, files, libraries, input) {
        Ok(()) => LinkError::Refused(fault),
        Err(e) => e,
    }
}

/// Why the inputs aren't loaded, where this is why the first object of the words isn't read.
pub fn refused(
    alloc: Global,
    files: &[Seq<u8>],
    libraries: &[LibraryFile],
    first: ReadError,
) -> LinkError
    requires read { All (IsRead files.now) libraries.now }
    requires few { All (λ l. l.first + length l.library.members < 2 ^ 32) libraries.now }
    ensures { IsLeast result files.now libraries.now first }
{
    match first {
        ReadError::Refused { input, fault } => least_fault(alloc, files, libraries, input, fault),
        ReadError::OutOfMemory => LinkError::OutOfMemory,
    }
}
