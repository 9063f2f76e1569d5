//! The words of inputs and of the marks between them, from left to right, since a mark changes what
//! the words behind it stand for.
ghost use Rattle.std.specs.Prelude.{◌≡◌, ◌++◌, IsTrue, IfOk, IfErr, OnOk, false, map};
ghost use Rattle.wl_outside.specs.Shelf.{Same, Grows};
ghost use Rattle.driver_words.specs.Expand.{Blames};
ghost use Rattle.driver_table.specs.Cut.{behind};
ghost use Rattle.driver_texts.specs.Paths.{plain as plain_of, member_path as member_path_of};
ghost use Rattle.driver_words.specs.Start.{started};
ghost use Rattle.driver_words.specs.Inputs.{file_named, or_unfound as or_unfound_of, library_path as library_path_of, marked, grouped, is_thin as is_thin_of, opened, opened_of, given_by, inside_after, whole_after, inputs_of, inputs_from, folders_of, outcome};

use crate::search::{find_library, library_file};
use crate::spread::load_members;
use crate::start::start;
use crate::{Finder, Stop};
use driver_table::{Item, Line, Meaning, strip};
use driver_texts::{THIN, member_path, plain};
use std::alloc::Global;
use wl_base::{OutOfMemory, Seq, Text};

// The file of `-lNAME`, and of `-l:FILE`.
fn file_of(alloc: Global, name: &str) -> Result<Text, OutOfMemory>
    ensures { IfOk result (λ file. file ≡ file_named name.now) }
{
    match strip(name, ":") {
        Some(file) => Text::new(alloc, file),
        None => library_file(alloc, name),
    }
}

// The path of a library as a word, or the line that refuses it.
fn or_unfound(
    alloc: Global,
    name: &str,
    path: Option<Text>,
) -> Result<Result<Text, Text>, OutOfMemory>
    ensures { IfOk result (λ word. word ≡ or_unfound_of name.now path) }
{
    match path {
        Some(path) => Ok(Ok(plain(alloc, path.as_str())?)),
        None => Ok(Err(Line::new("unable to find library -l", name, "", "").text(alloc)?)),
    }
}

// The path of a library.
fn library_path<F: Finder>(
    alloc: Global,
    shelf: &F,
    folders: &[Text],
    name: &str,
) -> Result<Result<Text, Text>, OutOfMemory>
    ensures { IfOk result (λ word. IsTrue (F.shown shelf.now).tells → word ≡ library_path_of (F.shown shelf.now).held folders.now name.now) }
{
    let file = file_of(alloc, name)?;
    let path = find_library(alloc, shelf, folders, file.as_str())?;
    Ok(or_unfound(alloc, name, path)?)
}

// Puts the members of a thin library behind the words.
fn put_members(
    alloc: Global,
    path: &str,
    names: &[Text],
    words: &mut Seq<Text>,
) -> Result<(), OutOfMemory>
    ensures { OnOk result (words.new ≡ words.old ++ map (member_path_of path.now) names.now) }
{
    for name in names {
        words.push(member_path(alloc, path, name.as_str())?)?;
    }
    Ok(())
}

// Puts the members of a thin library behind the words, as a group where they aren't in one.
fn put_group(
    alloc: Global,
    within: bool,
    path: &str,
    names: &[Text],
    words: &mut Seq<Text>,
) -> Result<(), OutOfMemory>
    ensures { OnOk result (words.new ≡ words.old ++ grouped within (map (member_path_of path.now) names.now)) }
{
    if within {
        return put_members(alloc, path, names, words);
    }
    words.push(Text::new(alloc, "--start-lib")?)?;
    put_members(alloc, path, names, words)?;
    words.push(Text::new(alloc, "--end-lib")?)?;
    Ok(())
}

// Whether a path has a thin library. What is named as an object isn't looked into, so that no object is opened twice.
fn is_thin<F: Finder>(shelf: &F, path: &str) -> bool
    ensures { IsTrue (F.shown shelf.now).tells → result ≡ is_thin_of (F.shown shelf.now).held path.now }
{
    !path.as_bytes().ends_with(b".o".as_slice()) && shelf.begins_with(path, THIN.as_bytes())
}

// Puts the words of a path behind the others.
fn open<F: Finder>(
    alloc: Global,
    shelf: &mut F,
    within: bool,
    path: Text,
    words: &mut Seq<Text>,
) -> Result<(), Stop>
    ensures words { OnOk result (IsTrue (F.shown shelf.old).tells → words.new ≡ words.old ++ opened (F.shown shelf.old).held within path) }
    ensures same { Same (F.shown shelf.old) (F.shown shelf.new) }
    ensures grows { Grows (F.shown shelf.old) (F.shown shelf.new) }
    ensures cause { IfErr result (λ e. Blames e (F.shown shelf.old) (F.shown shelf.new)) }
{
    if !is_thin(shelf, path.as_str()) {
        words.push(path)?;
        return Ok(());
    }
    let names = load_members(alloc, shelf, path.as_str())?;
    put_group(alloc, within, path.as_str(), names.as_slice(), words)?;
    Ok(())
}

// Puts the words of a path behind the others, or answers the line that refuses it.
fn put<F: Finder>(
    alloc: Global,
    shelf: &mut F,
    within: bool,
    path: Result<Text, Text>,
    words: &mut Seq<Text>,
) -> Result<Option<Text>, Stop>
    ensures words { IfOk result (λ refusal. IsTrue (F.shown shelf.old).tells → outcome refusal words.new ≡ behind words.old (opened_of (F.shown shelf.old).held within path)) }
    ensures same { Same (F.shown shelf.old) (F.shown shelf.new) }
    ensures grows { Grows (F.shown shelf.old) (F.shown shelf.new) }
    ensures cause { IfErr result (λ e. Blames e (F.shown shelf.old) (F.shown shelf.new)) }
{
    match path {
        Ok(path) => {
            open(alloc, shelf, within, path, words)?;
            Ok(None)
        }
        Err(refusal) => Ok(Some(refusal)),
    }
}

// Puts a mark behind the words where it may stand, or answers the line that refuses it.
fn put_mark(
    alloc: Global,
    stands: bool,
    mark: &str,
    refusal: &str,
    words: &mut Seq<Text>,
) -> Result<Option<Text>, OutOfMemory>
    ensures { IfOk result (λ refused. outcome refused words.new ≡ behind words.old (marked stands mark.now refusal.now)) }
{
    if !stands {
        return Ok(Some(Text::new(alloc, refusal)?));
    }
    words.push(Text::new(alloc, mark)?)?;
    Ok(None)
}

// Puts the words of an input behind the others, or answers the line that refuses it.
#[tactic(auto, using(crate::proofs::Held::blamed_before, crate::proofs::Held::same_all, crate::proofs::Held::grows_all))]
fn put_input<F: Finder>(
    alloc: Global,
    shelf: &mut F,
    folders: &[Text],
    within: bool,
    path: &str,
    words: &mut Seq<Text>,
) -> Result<Option<Text>, Stop>
    ensures words { IfOk result (λ refusal. IsTrue (F.shown shelf.old).tells → outcome refusal words.new ≡ behind words.old (opened_of (F.shown shelf.old).held within (started (F.shown shelf.old).held folders.now (plain_of path.now)))) }
    ensures same { Same (F.shown shelf.old) (F.shown shelf.new) }
    ensures grows { Grows (F.shown shelf.old) (F.shown shelf.new) }
    ensures cause { IfErr result (λ e. Blames e (F.shown shelf.old) (F.shown shelf.new)) }
{
    let word = plain(alloc, path)?;
    let input = start(alloc, shelf, folders, word)?;
    put(alloc, shelf, within, input, words)
}

// Puts the words of a library behind the others, or answers the line that refuses it.
fn put_library<F: Finder>(
    alloc: Global,
    shelf: &mut F,
    folders: &[Text],
    within: bool,
    name: &str,
    words: &mut Seq<Text>,
) -> Result<Option<Text>, Stop>
    ensures words { IfOk result (λ refusal. IsTrue (F.shown shelf.old).tells → outcome refusal words.new ≡ behind words.old (opened_of (F.shown shelf.old).held within (library_path_of (F.shown shelf.old).held folders.now name.now))) }
    ensures same { Same (F.shown shelf.old) (F.shown shelf.new) }
    ensures grows { Grows (F.shown shelf.old) (F.shown shelf.new) }
    ensures cause { IfErr result (λ e. Blames e (F.shown shelf.old) (F.shown shelf.new)) }
{
    let path = library_path(alloc, shelf, folders, name)?;
    put(alloc, shelf, within, path, words)
}

// Puts the words that an item gives behind the others, or answers the line that refuses it.
fn put_item<F: Finder>(
    alloc: Global,
    shelf: &mut F,
    folders: &[Text],
    inside: bool,
    whole: bool,
    item: &Item<'_>,
    words: &mut Seq<Text>,
) -> Result<Option<Text>, Stop>
    ensures words { IfOk result (λ refusal. IsTrue (F.shown shelf.old).tells → outcome refusal words.new ≡ behind words.old (given_by (F.shown shelf.old).held folders.now inside whole item.now.meaning item.now.value)) }
    ensures same { Same (F.shown shelf.old) (F.shown shelf.new) }
    ensures grows { Grows (F.shown shelf.old) (F.shown shelf.new) }
    ensures cause { IfErr result (λ e. Blames e (F.shown shelf.old) (F.shown shelf.new)) }
{
    let value = item.value();
    match item.meaning() {
        Meaning::Input => put_input(alloc, shelf, folders, inside || whole, value, words),
        Meaning::Library => put_library(alloc, shelf, folders, inside || whole, value, words),
        Meaning::StartLib => Ok(put_mark(
            alloc,
            !inside,
            "--start-lib",
            "nested --start-lib",
            words,
        )?),
        Meaning::EndLib => Ok(put_mark(alloc, inside, "--end-lib", "stray --end-lib", words)?),
        Meaning::WholeArchive => Ok(put_mark(alloc, true, "--whole-archive", "", words)?),
        Meaning::NoWholeArchive => Ok(put_mark(alloc, true, "--no-whole-archive", "", words)?),
        _ => Ok(None),
    }
}

// Whether a group is open behind an item.
fn is_inside_after(inside: bool, meaning: Meaning) -> bool
    ensures { result ≡ inside_after inside meaning }
{
    match meaning {
        Meaning::StartLib => true,
        Meaning::EndLib => false,
        _ => inside,
    }
}

// Whether libraries are whole behind an item.
fn is_whole_after(whole: bool, meaning: Meaning) -> bool
    ensures { result ≡ whole_after whole meaning }
{
    match meaning {
        Meaning::WholeArchive => true,
        Meaning::NoWholeArchive => false,
        _ => whole,
    }
}

// The folders in which libraries are looked for.
fn folders(alloc: Global, items: &[Item<'_>]) -> Result<Seq<Text>, OutOfMemory>
    ensures { IfOk result (λ folders. folders ≡ folders_of items.now) }
{
    let mut folders = Seq::new(alloc);
    for item in items {
        if item.meaning().is(Meaning::Folder) {
            folders.push(Text::new(alloc, item.value())?)?;
        }
    }
    Ok(folders)
}

// The words of inputs behind those that are there, or the line that refuses them.
#[tactic(auto, using(crate::proofs::Held::blamed_before, crate::proofs::Held::same_all, crate::proofs::Held::grows_all))]
fn put_items<F: Finder>(
    alloc: Global,
    shelf: &mut F,
    folders: &[Text],
    items: &[Item<'_>],
    mut words: Seq<Text>,
) -> Result<Result<Seq<Text>, Text>, Stop>
    ensures words { IfOk result (λ all. IsTrue (F.shown shelf.old).tells → all ≡ behind words (inputs_from (F.shown shelf.old).held folders.now false false items.now)) }
    ensures same { Same (F.shown shelf.old) (F.shown shelf.new) }
    ensures grows { Grows (F.shown shelf.old) (F.shown shelf.new) }
    ensures cause { IfErr result (λ e. Blames e (F.shown shelf.old) (F.shown shelf.new)) }
{
    let mut inside = false;
    let mut whole = false;
    for item in items {
        let refusal = put_item(alloc, shelf, folders, inside, whole, item, &mut words)?;
        if let Some(refusal) = refusal {
            return Ok(Err(refusal));
        }
        let meaning = item.meaning();
        inside = is_inside_after(inside, meaning);
        whole = is_whole_after(whole, meaning);
    }
    if inside {
        words.push(Text::new(alloc, "--end-lib")?)?;
    }
    Ok(Ok(words))
}

/// Puts the words of inputs behind those that are there: what was named and found, in the order of the
/// items, with the marks between them; else the line that refuses them.
///
/// # Errors
/// The name of a file that is there and can't be read; want of memory.
pub fn with_inputs<F: Finder>(
    alloc: Global,
    shelf: &mut F,
    items: &[Item<'_>],
    words: Seq<Text>,
) -> Result<Result<Seq<Text>, Text>, Stop>
    ensures words { IfOk result (λ all. IsTrue (F.shown shelf.old).tells → all ≡ behind words (inputs_of (F.shown shelf.old).held items.now)) }
    ensures same { Same (F.shown shelf.old) (F.shown shelf.new) }
    ensures grows { Grows (F.shown shelf.old) (F.shown shelf.new) }
    ensures cause { IfErr result (λ e. Blames e (F.shown shelf.old) (F.shown shelf.new)) }
{
    let folders = folders(alloc, items)?;
    put_items(alloc, shelf, folders.as_slice(), items, words)
}
