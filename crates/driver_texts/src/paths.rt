//! Paths of inputs, as words that can't be taken for options.
ghost use Rattle.std.specs.Prelude.{◌≡◌, ◌++◌, IfOk};
ghost use Rattle.std.specs.Option.{option_map};
ghost use Rattle.driver_texts.specs.Paths.{plain as plain_of, stripped_end, slashed as slashed_of, member_path as member_path_of};

use driver_table::strip;
use std::alloc::Global;
use wl_base::{OutOfMemory, Text};

/// A path as a word, which doesn't begin with `-`.
pub fn plain(alloc: Global, path: &str) -> Result<Text, OutOfMemory>
    ensures { IfOk result (λ word. word ≡ plain_of path.now) }
{
    if strip(path, "-").is_some() {
        return joined(alloc, "./", path);
    }
    Text::new(alloc, path)
}

// Two parts of a path.
fn joined(alloc: Global, front: &str, path: &str) -> Result<Text, OutOfMemory>
    ensures { IfOk result (λ word. word ≡ front.now ++ path.now) }
{
    let mut text = String::from_str(alloc, front)?;
    text.push_str(path)?;
    Ok(Text::from_string(text))
}

/// What stands before the end, where the text ends with it.
#[tactic(auto, using(crate::proofs::Ends::strip_end))]
pub fn strip_end<'a>(text: &'a str, end: &str) -> Option<&'a str>
    ensures { option_map (λ t. t.now) result ≡ stripped_end end.now text.now }
{
    text.strip_suffix(end)
}

// How many bytes there are up to the last slash.
fn slashed(path: &[u8]) -> usize
    ensures value { result ≡ slashed_of 0 0 path.now }
{
    let mut end = 0;
    for at in 0..path.len() {
        if path[at] == b'/' {
            end = at + 1;
        }
    }
    end
}

/// The path of a thin library's member: beside the library, unless it begins with a slash.
///
/// # Errors
/// Want of memory.
pub fn member_path(alloc: Global, library: &str, name: &str) -> Result<Text, OutOfMemory>
    ensures { IfOk result (λ path. path ≡ member_path_of library.now name.now) }
{
    if strip(name, "/").is_some() {
        return plain(alloc, name);
    }
    // A slash ends a character, so a path can always be cut behind one.
    match library.split_at_checked(slashed(library.as_bytes())) {
        Some((folder, _)) => plain(alloc, joined(alloc, folder, name)?.as_str()),
        None => Err(OutOfMemory),
    }
}
