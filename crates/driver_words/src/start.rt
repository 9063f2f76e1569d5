//! The start file that has to be replaced: wasm-ld calls the constructors where it doesn't, by
//! wrapping exports, and here `crt1.o` has to call them.
ghost use Rattle.std.specs.Prelude.{◌≡◌, IsTrue, IfOk, IfErr};
ghost use Rattle.std.specs.Option.{option_map};
ghost use Rattle.wl_outside.specs.Shelf.{Same, Grows};
ghost use Rattle.driver_words.specs.Expand.{Blames};
ghost use Rattle.driver_words.specs.Start.{has_part as has_part_of, folder_in as folder_in_of, start_folder as start_folder_of, leaves, or_refused as or_refused_of, beside as beside_of, started as started_of};

use crate::search::{ends_in_slash, find_from};
use crate::spread::load_file;
use crate::{Finder, Stop};
use driver_table::Line;
use driver_texts::{plain, strip_end};
use std::alloc::Global;
use wl_base::{OutOfMemory, Text};

fn has_part(bytes: &[u8], part: &[u8]) -> bool
    ensures { result ≡ has_part_of part.now bytes.now }
{
    for at in 0..bytes.len() {
        if bytes[at..].starts_with(part) {
            return true;
        }
    }
    false
}

// The folder in front of a file's name, where all of the name stands behind it.
fn folder_in(front: &str) -> Option<&str>
    ensures { option_map (λ t. t.now) result ≡ folder_in_of front.now }
{
    if front.is_empty() {
        return Some("./");
    }
    if ends_in_slash(front) {
        Some(front)
    } else {
        None
    }
}

// The folder of a path to a `crt1-command.o`.
fn start_folder(path: &str) -> Option<&str>
    ensures { option_map (λ t. t.now) result ≡ start_folder_of path.now }
{
    match strip_end(path, "crt1-command.o") {
        Some(front) => folder_in(front),
        None => None,
    }
}

// Whether the file of a path is there and doesn't call the constructors.
fn leaves_constructors<F: Finder>(alloc: Global, shelf: &mut F, path: &str) -> Result<bool, Stop>
    ensures said { IfOk result (λ b. IsTrue (F.shown shelf.old).tells → b ≡ leaves ((F.shown shelf.old).held path.now)) }
    ensures same { Same (F.shown shelf.old) (F.shown shelf.new) }
    ensures grows { Grows (F.shown shelf.old) (F.shown shelf.new) }
    ensures cause { IfErr result (λ e. Blames e (F.shown shelf.old) (F.shown shelf.new)) }
{
    if !shelf.holds(path) {
        return Ok(false);
    }
    let bytes = load_file(alloc, shelf, path)?;
    Ok(!has_part(bytes.as_slice(), b"__wasm_call_ctors".as_slice()))
}

// The path of `crt1.o` as a word, or the line that refuses the start file.
fn or_refused(
    alloc: Global,
    path: &str,
    other: Option<Text>,
) -> Result<Result<Text, Text>, OutOfMemory>
    ensures { IfOk result (λ word. word ≡ or_refused_of path.now other) }
{
    match other {
        Some(other) => Ok(Ok(plain(alloc, other.as_str())?)),
        None => Ok(Err(Line::new(
            path,
            ": constructors would not be called, and there is no crt1.o beside it or in a folder of -L",
            "",
            "",
        )
        .text(alloc)?)),
    }
}

// What stands for the start file: `crt1.o` in its folder, or in the first that has it.
fn beside<F: Finder>(
    alloc: Global,
    shelf: &F,
    folders: &[Text],
    path: &str,
    folder: &str,
) -> Result<Result<Text, Text>, OutOfMemory>
    ensures { IfOk result (λ word. IsTrue (F.shown shelf.now).tells → word ≡ beside_of (F.shown shelf.now).held folders.now path.now folder.now) }
{
    let other = find_from(alloc, shelf, folder, folders, "crt1.o")?;
    Ok(or_refused(alloc, path, other)?)
}

/// The path of an input, or of what stands for it where it is a start file that leaves constructors to
/// the linker; else the line that refuses it.
///
/// # Errors
/// The name of a start file that is there and can't be read; want of memory.
#[tactic(auto, using(crate::proofs::Worlds::beside_same, crate::proofs::Held::blamed_before, crate::proofs::Held::same_all, crate::proofs::Held::grows_all))]
pub fn start<F: Finder>(
    alloc: Global,
    shelf: &mut F,
    folders: &[Text],
    path: Text,
) -> Result<Result<Text, Text>, Stop>
    ensures word { IfOk result (λ word. IsTrue (F.shown shelf.old).tells → word ≡ started_of (F.shown shelf.old).held folders.now path) }
    ensures same { Same (F.shown shelf.old) (F.shown shelf.new) }
    ensures grows { Grows (F.shown shelf.old) (F.shown shelf.new) }
    ensures cause { IfErr result (λ e. Blames e (F.shown shelf.old) (F.shown shelf.new)) }
{
    if let Some(folder) = start_folder(path.as_str()) {
        if leaves_constructors(alloc, shelf, path.as_str())? {
            return Ok(beside(alloc, shelf, folders, path.as_str(), folder)?);
        }
    }
    Ok(Ok(path))
}
