//! Response files in their words' places, a level at a time, so that a file that names itself ends
//! at a depth.
ghost use Rattle.std.specs.Prelude.{◌≡◌, ◌++◌, IsTrue, IfOk, IfErr, OnOk, IsSome, Some, ◌∷◌, []};
ghost use Rattle.std.specs.Option.{option_map};
ghost use Rattle.wl_outside.specs.Shelf.{Same, Grows};
ghost use Rattle.driver_texts.specs.Thin.{members_of};
ghost use Rattle.driver_texts.specs.Tokens.{tokens_of};
ghost use Rattle.driver_words.specs.Expand.{Blames, Others, expanded, expanded_to, expanded_word, first_there as first_there_of, there as there_of, asked};

use crate::{Finder, Stop};
use driver_texts::{members, tokens};
use std::alloc::Global;
use wl_base::{OutOfMemory, Seq, Text};
use wl_outside::LoadFault;

/// How deep response files may name one another.
const DEPTH: u32 = 20;

/// The file that a word asks for.
fn asked_name(word: &str) -> Option<&str>
    ensures { option_map (λ n. n.now) result ≡ asked word.now }
{
    word.strip_prefix("@")
}

/// The file of a name that is there.
fn there<'a, F: Finder>(shelf: &F, name: Option<&'a str>) -> Option<&'a str>
    ensures { IsTrue (F.shown shelf.now).tells → option_map (λ n. n.now) result ≡ there_of (F.shown shelf.now).held (option_map (λ n. n.now) name.entry) }
{
    match name {
        Some(name) if shelf.holds(name) => Some(name),
        _ => None,
    }
}

/// The first file that words ask for, and that is there.
fn first_there<'a, F: Finder>(shelf: &F, words: &'a [Text]) -> Option<&'a str>
    ensures { IsTrue (F.shown shelf.now).tells → option_map (λ n. n.now) result ≡ first_there_of (F.shown shelf.now).held words.now }
{
    for word in words {
        if let Some(name) = there(shelf, asked_name(word.as_str())) {
            return Some(name);
        }
    }
    None
}

/// The words of the file of this name as texts.
#[tactic(auto, using(crate::proofs::Held::has_other))]
fn texts(alloc: Global, name: &str, words: &[Seq<u8>]) -> Result<Seq<Text>, Stop>
    ensures words { IfOk result (λ texts. texts ≡ words.now) }
    ensures cause { IfErr result (λ e. Others e name.now words.now) }
{
    let mut texts = Seq::new(alloc);
    for word in words {
        match std::str::from_utf8(word.as_slice()) {
            Ok(text) => texts.push(Text::new(alloc, text)?)?,
            Err(_) => return Err(Stop::NotText(Text::new(alloc, name)?)),
        }
    }
    Ok(texts)
}

/// The word alone.
fn alone(alloc: Global, word: &Text) -> Result<Seq<Text>, OutOfMemory>
    ensures { IfOk result (λ words. words ≡ word.now ∷ []) }
{
    let mut words = Seq::new(alloc);
    words.push(Text::new(alloc, word.as_str())?)?;
    Ok(words)
}

/// The bytes of the file of this name, which is there.
///
/// # Errors
/// The name, where it can't be read; want of memory.
pub fn load_file<F: Finder>(alloc: Global, shelf: &mut F, name: &str) -> Result<Seq<u8>, Stop>
    requires { IsTrue (F.shown shelf.old).tells → IsSome ((F.shown shelf.old).held name.now) }
    ensures bytes { IfOk result (λ bytes. IsTrue (F.shown shelf.old).tells → (F.shown shelf.old).held name.now ≡ Some bytes) }
    ensures same { Same (F.shown shelf.old) (F.shown shelf.new) }
    ensures grows { Grows (F.shown shelf.old) (F.shown shelf.new) }
    ensures cause { IfErr result (λ e. Blames e (F.shown shelf.old) (F.shown shelf.new)) }
{
    match shelf.load(alloc, name) {
        Ok(bytes) => Ok(bytes),
        Err(LoadFault::Failed) => Err(Stop::Unreadable(Text::new(alloc, name)?)),
        Err(LoadFault::OutOfMemory) => Err(Stop::OutOfMemory),
    }
}

/// The words of the file of this name, which is there.
#[tactic(auto, using(crate::proofs::Held::words_blamed))]
fn words_of<F: Finder>(alloc: Global, shelf: &mut F, name: &str) -> Result<Seq<Text>, Stop>
    requires { IsTrue (F.shown shelf.old).tells → IsSome ((F.shown shelf.old).held name.now) }
    ensures words { IfOk result (λ words. IsTrue (F.shown shelf.old).tells → Some words ≡ option_map tokens_of ((F.shown shelf.old).held name.now)) }
    ensures same { Same (F.shown shelf.old) (F.shown shelf.new) }
    ensures grows { Grows (F.shown shelf.old) (F.shown shelf.new) }
    ensures cause { IfErr result (λ e. Blames e (F.shown shelf.old) (F.shown shelf.new)) }
{
    let text = load_file(alloc, shelf, name)?;
    let words = tokens(alloc, text.as_slice())?;
    texts(alloc, name, words.as_slice())
}

/// The names of the members of the thin library of this name, which is there.
///
/// # Errors
/// The library's name, where it can't be read, or where a member's name isn't UTF-8; want of memory.
#[tactic(auto, using(crate::proofs::Held::names_blamed))]
pub fn load_members<F: Finder>(alloc: Global, shelf: &mut F, name: &str) -> Result<Seq<Text>, Stop>
    requires { IsTrue (F.shown shelf.old).tells → IsSome ((F.shown shelf.old).held name.now) }
    ensures names { IfOk result (λ names. IsTrue (F.shown shelf.old).tells → Some names ≡ option_map members_of ((F.shown shelf.old).held name.now)) }
    ensures same { Same (F.shown shelf.old) (F.shown shelf.new) }
    ensures grows { Grows (F.shown shelf.old) (F.shown shelf.new) }
    ensures cause { IfErr result (λ e. Blames e (F.shown shelf.old) (F.shown shelf.new)) }
{
    let text = load_file(alloc, shelf, name)?;
    let names = members(alloc, text.as_slice())?;
    texts(alloc, name, names.as_slice())
}

/// The words that a word stands for, with the file that it asks for.
fn expand_word<F: Finder>(
    alloc: Global,
    shelf: &mut F,
    word: &Text,
    name: Option<&str>,
) -> Result<Seq<Text>, Stop>
    requires { option_map (λ n. n.now) name ≡ asked word.now }
    ensures words { IfOk result (λ words. IsTrue (F.shown shelf.old).tells → words ≡ expanded_word (F.shown shelf.old).held word.now) }
    ensures same { Same (F.shown shelf.old) (F.shown shelf.new) }
    ensures grows { Grows (F.shown shelf.old) (F.shown shelf.new) }
    ensures cause { IfErr result (λ e. Blames e (F.shown shelf.old) (F.shown shelf.new)) }
{
    if let Some(name) = name {
        if shelf.holds(name) {
            return words_of(alloc, shelf, name);
        }
    }
    Ok(alone(alloc, word)?)
}

/// Puts the words behind those that are there.
fn append(all: &mut Seq<Text>, more: Seq<Text>) -> Result<(), OutOfMemory>
    ensures { OnOk result (all.new ≡ all.old ++ more) }
{
    for word in more.into_vec() {
        all.push(word)?;
    }
    Ok(())
}

/// The words, where each `@FILE` whose file is there is replaced by the words that the file has. Those
/// stand as they are, also where they begin with `@`.
#[tactic(auto, using(crate::proofs::Held::word_same, crate::proofs::Held::blamed_before, crate::proofs::Held::same_all, crate::proofs::Held::grows_all))]
fn expand<F: Finder>(alloc: Global, shelf: &mut F, words: &[Text]) -> Result<Seq<Text>, Stop>
    ensures words { IfOk result (λ all. IsTrue (F.shown shelf.old).tells → all ≡ expanded (F.shown shelf.old).held words.now) }
    ensures same { Same (F.shown shelf.old) (F.shown shelf.new) }
    ensures grows { Grows (F.shown shelf.old) (F.shown shelf.new) }
    ensures cause { IfErr result (λ e. Blames e (F.shown shelf.old) (F.shown shelf.new)) }
{
    let mut all = Seq::new(alloc);
    for word in words {
        let more = expand_word(alloc, shelf, word, asked_name(word.as_str()))?;
        append(&mut all, more)?;
    }
    Ok(all)
}

/// The words, where each `@FILE` whose file is there is replaced by the words that the file has, and so
/// on with these, to a depth of 20; else the name of a file that is deeper. All is held as before.
///
/// # Errors
/// The name of a file that is there and can't be read, or that isn't text; want of memory.
#[tactic(auto, using(crate::proofs::Held::none_there, crate::proofs::Held::too_deep, crate::proofs::Held::one_deeper, crate::proofs::Held::expanded_same, crate::proofs::Held::held_same, crate::proofs::Held::blamed_before, crate::proofs::Held::same_all, crate::proofs::Held::grows_all))]
pub fn expand_all<F: Finder>(
    alloc: Global,
    shelf: &mut F,
    mut words: Seq<Text>,
) -> Result<Result<Seq<Text>, Text>, Stop>
    ensures words { IfOk result (λ all. IsTrue (F.shown shelf.old).tells → all ≡ expanded_to 20 (F.shown shelf.old).held words) }
    ensures same { Same (F.shown shelf.old) (F.shown shelf.new) }
    ensures grows { Grows (F.shown shelf.old) (F.shown shelf.new) }
    ensures cause { IfErr result (λ e. Blames e (F.shown shelf.old) (F.shown shelf.new)) }
{
    for _ in 0..DEPTH {
        if first_there(shelf, words.as_slice()).is_none() {
            return Ok(Ok(words));
        }
        words = expand(alloc, shelf, words.as_slice())?;
    }
    match first_there(shelf, words.as_slice()) {
        Some(name) => Ok(Err(Text::new(alloc, name)?)),
        None => Ok(Ok(words)),
    }
}
