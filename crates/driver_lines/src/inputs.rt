//! The names of inputs.
ghost use Rattle.std.specs.Prelude.{◌≡◌, ◌++◌, map, IfOk, OnOk};
ghost use Rattle.driver_lines.specs.Members.{member_text as member_text_of, name_in, long_names as long_names_of, names_of_library, names_of_file, input_names as input_names_of};

use crate::archive::{long_names, member_name, name_field};
use lib_index::{LibError, Library, has_magic, read_index};
use std::alloc::Global;
use wl_base::{OutOfMemory, Seq, Text};

/// How long a library may be.
const TOO_LONG: u64 = 1 << 32;

// A member as an input.
fn member_text(alloc: Global, library: &str, name: &[u8]) -> Result<Text, OutOfMemory>
    ensures { IfOk result (λ text. text ≡ member_text_of library.now name.now) }
{
    let name = String::from_utf8_lossy(alloc, name)?;
    let mut text = String::from_str(alloc, library)?;
    text.push_str("(")?;
    text.push_str(name.as_str())?;
    text.push_str(")")?;
    Ok(Text::from_string(text))
}

// Puts the names of a library's members behind the others.
fn add_members(
    alloc: Global,
    name: &str,
    bytes: &[u8],
    library: &Library,
    names: &mut Seq<Text>,
) -> Result<(), OutOfMemory>
    ensures { OnOk result (names.new ≡ names.old ++ map (name_in name.now bytes.now (long_names_of bytes.now)) library.now.members) }
{
    let longs = long_names(bytes);
    for k in 0..library.count() {
        let field = name_field(bytes, library.member(k));
        names.push(member_text(alloc, name, member_name(longs, field))?)?;
    }
    Ok(())
}

// Puts the names of the inputs that a library is behind the others.
fn add_library(
    alloc: Global,
    name: &str,
    bytes: &[u8],
    names: &mut Seq<Text>,
) -> Result<(), OutOfMemory>
    ensures { OnOk result (names.new ≡ names.old ++ names_of_library name.now bytes.now) }
{
    if bytes.len() as u64 >= TOO_LONG {
        return Ok(());
    }
    match read_index(alloc, bytes) {
        Ok(library) => add_members(alloc, name, bytes, &library, names),
        Err(LibError::Refused(_)) => Ok(()),
        Err(LibError::OutOfMemory) => Err(OutOfMemory),
    }
}

// Puts the names of the inputs that a file is behind the others.
fn add_file(
    alloc: Global,
    name: &str,
    bytes: &[u8],
    names: &mut Seq<Text>,
) -> Result<(), OutOfMemory>
    ensures { OnOk result (names.new ≡ names.old ++ names_of_file name.now bytes.now) }
{
    if has_magic(bytes) {
        return add_library(alloc, name, bytes, names);
    }
    names.push(Text::new(alloc, name)?)?;
    Ok(())
}

/// The names of the inputs of files with these names, in the order in which inputs are numbered, that
/// of input 1 first: an object's file under its own name, and a library's members each as
/// `LIBRARY(MEMBER)`; a library that can't be read gives none.
///
/// # Errors
/// Want of memory.
pub fn input_names(
    alloc: Global,
    names: &[Text],
    files: &[Seq<u8>],
) -> Result<Seq<Text>, OutOfMemory>
    ensures { IfOk result (λ all. all ≡ input_names_of names.now files.now) }
{
    let mut all = Seq::new(alloc);
    for at in 0..names.len().min(files.len()) {
        add_file(alloc, names[at].as_str(), files[at].as_slice(), &mut all)?;
    }
    Ok(all)
}
