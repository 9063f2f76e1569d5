//! Searches and response files, over shelves whose files are told by their names.

use driver_words::{Finder, Stop, expand_all, find_from, find_library, tokens};
use std::alloc::Global;
use std::test::Fail;
use test_kit::{file, roomy_shelf, shelf_of, texts};
use wl_base::{OutOfMemory, Seq, Text};
use wl_outside::{Held, MemShelf, NeverFails};

/// Files of two folders, and a response file.
fn all_files(alloc: Global) -> Result<Seq<Held>, OutOfMemory> {
    let mut all = Seq::new(alloc);
    for name in ["a/libx.a", "b/libx.a", "b/liby.a", "a/libx.so", "a/z.o"] {
        all.push(file(alloc, name, &[])?)?;
    }
    let words = b"m.o \"x y.o\"\n'q'r\\ s.o\n@s".as_slice();
    all.push(file(alloc, "r", words)?)?;
    Ok(all)
}

/// The files, of which the listed calls fail.
fn shelf(alloc: Global, failing: &[u32]) -> Option<MemShelf> {
    let all = all_files(alloc).ok()?;
    shelf_of(alloc, all, failing).ok()
}

/// The files, with no room for an output.
fn shelf_for_good(alloc: Global) -> Option<NeverFails> {
    let all = all_files(alloc).ok()?;
    roomy_shelf(alloc, all, "out", 0).ok()
}

/// Whether the words are these.
fn are(words: &[Seq<u8>], these: &[&str]) -> bool {
    if words.len() != these.len() {
        return false;
    }
    for (word, this) in words.iter().zip(these) {
        if word.as_slice() != this.as_bytes() {
            return false;
        }
    }
    true
}

fn has_tokens(alloc: Global, text: &str, these: &[&str]) -> Result<bool, OutOfMemory> {
    let words = tokens(alloc, text.as_bytes())?;
    Ok(are(words.as_slice(), these))
}

#[test]
fn a_response_file_is_cut_into_words(rt: HostRuntime) -> Result<(), Fail> {
    let alloc = rt.alloc();
    assert!(rt;
        has_tokens(
            alloc,
            "m.o \"x y.o\"\n'q'r\\ s.o\n@s",
            &["m.o", "x y.o", "qr s.o", "@s"]
        )?
    );
    assert!(rt; has_tokens(alloc, "n.o \"\" -O2\r\n", &["n.o", "-O2"])?);
    assert!(rt; has_tokens(alloc, "", &[])?);
    Ok(())
}

/// Whether the words stand for these.
fn stand_for(alloc: Global, words: &[&str], these: &[&str]) -> Option<bool> {
    let mut shelf = shelf(alloc, &[])?;
    let words = texts(alloc, words).ok()?;
    match expand_all(alloc, &mut shelf, words) {
        Ok(Ok(all)) => Some(are_texts(all.as_slice(), these)),
        _ => None,
    }
}

/// Whether the file of this name is blamed, where the first load fails.
fn is_blamed(alloc: Global, words: &[&str], name: &str) -> Option<bool> {
    let mut shelf = shelf(alloc, &[1])?;
    let words = texts(alloc, words).ok()?;
    match expand_all(alloc, &mut shelf, words) {
        Err(Stop::Unreadable(file)) => Some(file.as_str() == name),
        _ => None,
    }
}

#[test]
fn response_files_stand_in_their_words_places(rt: HostRuntime) -> Result<(), Fail> {
    let alloc = rt.alloc();
    assert!(rt;
        stand_for(
            alloc,
            &["-o", "@r", "o"],
            &["-o", "m.o", "x y.o", "qr s.o", "@s", "o"]
        ) == Some(true)
    );
    assert!(rt; stand_for(alloc, &["@nosuch", "-o"], &["@nosuch", "-o"]) == Some(true));
    assert!(rt; is_blamed(alloc, &["m.o", "@r"], "r") == Some(true));
    Ok(())
}

/// Whether a search over this shelf finds just this path.
fn finds<F: Finder>(
    alloc: Global,
    shelf: &F,
    folders: &[&str],
    name: &str,
    path: Option<&str>,
) -> Option<bool> {
    let folders = texts(alloc, folders).ok()?;
    let found = find_library(alloc, shelf, folders.as_slice(), name).ok()?;
    Some(match (found, path) {
        (Some(found), Some(path)) => found.as_str() == path,
        (None, None) => true,
        _ => false,
    })
}

/// Whether a search over files in memory finds just this path.
fn finds_held(alloc: Global, folders: &[&str], name: &str, path: Option<&str>) -> Option<bool> {
    let shelf = shelf(alloc, &[])?;
    finds(alloc, &shelf, folders, name, path)
}

/// The same over a shelf of which no call fails.
fn finds_for_good(alloc: Global, folders: &[&str], name: &str, path: Option<&str>) -> Option<bool> {
    let shelf = shelf_for_good(alloc)?;
    finds(alloc, &shelf, folders, name, path)
}

/// Whether a search in a folder and then in others finds this path.
fn finds_from(alloc: Global, first: &str, others: &[&str], name: &str, path: &str) -> Option<bool> {
    let shelf = shelf(alloc, &[])?;
    let others = texts(alloc, others).ok()?;
    let found = find_from(alloc, &shelf, first, others.as_slice(), name).ok()??;
    Some(found.as_str() == path)
}

#[test]
fn the_first_folder_that_has_a_file_decides(rt: HostRuntime) -> Result<(), Fail> {
    let alloc = rt.alloc();
    assert!(rt; finds_held(alloc, &["a", "b"], "libx.a", Some("a/libx.a")) == Some(true));
    assert!(rt; finds_held(alloc, &["b/", "a/"], "libx.a", Some("b/libx.a")) == Some(true));
    assert!(rt; finds_held(alloc, &["a", "b"], "libq.a", None) == Some(true));
    assert!(rt; finds_for_good(alloc, &["a", "b"], "liby.a", Some("b/liby.a")) == Some(true));
    assert!(rt; finds_from(alloc, "a/", &["b"], "z.o", "a/z.o") == Some(true));
    assert!(rt; finds_from(alloc, "b", &["a"], "z.o", "a/z.o") == Some(true));
    Ok(())
}

/// Whether the words are these.
fn are_texts(words: &[Text], these: &[&str]) -> bool {
    if words.len() != these.len() {
        return false;
    }
    for (word, this) in words.iter().zip(these) {
        if word.as_str() != *this {
            return false;
        }
    }
    true
}
