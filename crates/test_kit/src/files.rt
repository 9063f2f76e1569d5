//! Words, and files that stand in memory.

use std::alloc::Global;
use wl_base::{OutOfMemory, Seq, Text};
use wl_outside::{Held, MemShelf, NeverFails, names_differ};

/// These words as texts.
pub fn texts(alloc: Global, words: &[&str]) -> Result<Seq<Text>, OutOfMemory> {
    let mut texts = Seq::new(alloc);
    for word in words {
        texts.push(Text::new(alloc, word)?)?;
    }
    Ok(texts)
}

/// A file of this name and these bytes.
pub fn file(alloc: Global, name: &str, bytes: &[u8]) -> Result<Held, OutOfMemory> {
    let name = Text::new(alloc, name)?;
    let bytes = Seq::from_slice(alloc, bytes)?;
    Ok(Held { name, bytes })
}

/// A shelf of these files, of which the listed calls fail. Where two files have one name there is none.
pub fn shelf_of(alloc: Global, files: Seq<Held>, failing: &[u32]) -> Result<MemShelf, OutOfMemory> {
    if !names_differ(files.as_slice()) {
        return Err(OutOfMemory);
    }
    let failing = Seq::from_slice(alloc, failing)?;
    Ok(MemShelf::new(alloc, files, failing))
}

/// A shelf of these files that never fails, with room for so many bytes of this output. Where two files have one name there is none.
pub fn roomy_shelf(
    alloc: Global,
    files: Seq<Held>,
    output: &str,
    room: u32,
) -> Result<NeverFails, OutOfMemory> {
    if !names_differ(files.as_slice()) {
        return Err(OutOfMemory);
    }
    let output = Text::new(alloc, output)?;
    NeverFails::new(alloc, files, output, room)
}
