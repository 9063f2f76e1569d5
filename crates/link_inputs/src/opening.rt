//! Files are opened: as objects, which aren't read yet, and as libraries by their indexes.
ghost use Rattle.std.specs.Prelude.{◌≡◌, ◌<◌, ◌^◌, length};
ghost use Rattle.link_program.specs.link_rules.Candidates.{is_library, total_len};
ghost use Rattle.link_program.specs.Answers.{Answers};
ghost use Rattle.link_inputs.specs.Opened.{opened_file, opened_from, opened_files};

use crate::limits::{count_inputs, total_len};
use lib_index::{LibError, Library, has_magic, read_index};
use link_program::LinkError;
use std::alloc::Global;
use wl_base::{Fault, Seq};

/// So many bytes are too many, over all files.
const TOO_MANY_BYTES: u64 = 1 << 32;

/// So many inputs are too many.
const TOO_MANY_INPUTS: u64 = 1 << 20;

/// A file that is opened.
#[derive(Drop)]
pub enum OpenFile {
    /// One of so many bytes.
    Object { len: u64 },
    Library(Library),
}

/// Whether a file is a library: it begins with one of the two magics of `ar`.
fn is_library(bytes: &[u8]) -> bool
    ensures { result ≡ is_library bytes.now }
{
    has_magic(bytes)
}

/// The file at this place.
fn open_file(alloc: Global, file: u32, bytes: &[u8]) -> Result<OpenFile, LinkError>
    requires { length bytes.now < 2 ^ 32 }
    ensures { Answers (λ o. o) result (opened_file file bytes.now) }
{
    if !is_library(bytes) {
        return Ok(OpenFile::Object {
            len: bytes.len() as u64,
        });
    }
    match read_index(alloc, bytes) {
        Ok(library) => Ok(OpenFile::Library(library)),
        Err(LibError::Refused(fault)) => Err(LinkError::Refused(Fault::Library { file, fault })),
        Err(LibError::OutOfMemory) => Err(LinkError::OutOfMemory),
    }
}

/// All files, or the fault of the first that can't be opened.
fn open_each(alloc: Global, files: &[Seq<u8>]) -> Result<Seq<OpenFile>, LinkError>
    requires few { length files.now < 2 ^ 32 }
    requires short { total_len files.now < 2 ^ 32 }
    ensures { Answers (λ os. os) result (opened_from 0 files.now) }
{
    let mut opened = Seq::new(alloc);
    for at in 0..files.len() {
        let file = open_file(alloc, at as u32, files[at].as_slice())?;
        opened.push(file)?;
    }
    Ok(opened)
}

/// Opens the files; or answers their first fault, of these: they have too many bytes together, the
/// first library that can't be read, they are too many inputs.
#[tactic(auto, unfolding(crate::specs::Opened::opened_files))]
pub fn open_files(alloc: Global, files: &[Seq<u8>]) -> Result<Seq<OpenFile>, LinkError>
    requires { length files.now < 2 ^ 32 }
    ensures { Answers (λ os. os) result (opened_files files.now) }
{
    let len = total_len(files);
    if len >= TOO_MANY_BYTES {
        return Err(LinkError::Refused(Fault::TooMuchInput { len }));
    }
    let opened = open_each(alloc, files)?;
    let count = count_inputs(opened.as_slice());
    if count >= TOO_MANY_INPUTS {
        return Err(LinkError::Refused(Fault::TooManyInputs { count }));
    }
    Ok(opened)
}
