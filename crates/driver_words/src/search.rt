//! Files that are looked for in folders. They are asked for and not loaded: most aren't there.
ghost use Rattle.std.specs.Prelude.{◌≡◌, ◌∷◌, IsTrue, IfOk};
ghost use Rattle.driver_words.specs.Search.{ends_in_slash as ends_in_slash_of, joined, found, holds, library_file as library_file_of};

use crate::Finder;
use std::alloc::Global;
use wl_base::{OutOfMemory, Text};

/// Whether a folder's name ends in a slash.
pub fn ends_in_slash(folder: &str) -> bool
    ensures { result ≡ ends_in_slash_of folder.now }
{
    let bytes = folder.as_bytes();
    match bytes.get(bytes.len().saturating_sub(1)) {
        None => false,
        Some(last) => *last == b'/',
    }
}

/// The path of a file of a folder.
fn join(alloc: Global, folder: &str, file: &str) -> Result<Text, OutOfMemory>
    ensures { IfOk result (λ path. path ≡ joined folder.now file.now) }
{
    let mut path = String::from_str(alloc, folder)?;
    if !ends_in_slash(folder) {
        path.push_str("/")?;
    }
    path.push_str(file)?;
    Ok(Text::from_string(path))
}

/// The file of a library's name: `libNAME.a`.
pub fn library_file(alloc: Global, name: &str) -> Result<Text, OutOfMemory>
    ensures { IfOk result (λ file. file ≡ library_file_of name.now) }
{
    let mut file = String::from_str(alloc, "lib")?;
    file.push_str(name)?;
    file.push_str(".a")?;
    Ok(Text::from_string(file))
}

/// The path of the file in the first folder that has it; `None` where none has.
///
/// The folders are asked in their order, and nothing is loaded.
///
/// # Errors
/// Want of memory.
pub fn find_library<F: Finder>(
    alloc: Global,
    finder: &F,
    folders: &[Text],
    file: &str,
) -> Result<Option<Text>, OutOfMemory>
    ensures { IfOk result (λ path. IsTrue (F.shown finder.now).tells → path ≡ found (holds (F.shown finder.now)) folders.now file.now) }
{
    for folder in folders {
        let path = join(alloc, folder.as_str(), file)?;
        if finder.holds(path.as_str()) {
            return Ok(Some(path));
        }
    }
    Ok(None)
}

/// The path of the file in this folder, or in the first of the others that has it.
///
/// # Errors
/// Want of memory.
pub fn find_from<F: Finder>(
    alloc: Global,
    finder: &F,
    folder: &str,
    folders: &[Text],
    file: &str,
) -> Result<Option<Text>, OutOfMemory>
    ensures { IfOk result (λ path. IsTrue (F.shown finder.now).tells → path ≡ found (holds (F.shown finder.now)) (folder.now ∷ folders.now) file.now) }
{
    let path = join(alloc, folder, file)?;
    if finder.holds(path.as_str()) {
        return Ok(Some(path));
    }
    find_library(alloc, finder, folders, file)
}
