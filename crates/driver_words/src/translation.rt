//! The translation. Each step judges all words before the next begins, so that the first fault in
//! this order is told.
ghost use Rattle.std.specs.Prelude.{◌≡◌, drop, IsTrue, IfOk, IfErr};
ghost use Rattle.std.specs.Option.{option_map};
ghost use Rattle.wl_outside.specs.Shelf.{Same, Grows};
ghost use Rattle.driver_words.specs.Expand.{Blames};
ghost use Rattle.driver_words.specs.Translated.{asked as asked_of, links as links_of, links_with as links_with_of, has_path as has_path_of, linked, answered, cut_and_answered, expanded_and_answered, translated_words, under_flavor, first_and_rest, flavored, is_flavor as is_flavor_of, behind_flavor as behind_flavor_of, translated};

use crate::answer::{Answer, What};
use crate::inputs::with_inputs;
use crate::spread::expand_all;
use crate::{Finder, Stop};
use driver_fields::{
    fatal, feature_words, keeps_names, lacking, own_words, values_fault, warnings,
};
use driver_table::{Item, Line, Meaning, cut_words};
use link_plan::FeatureWords;
use std::alloc::Global;
use wl_base::{OutOfMemory, Seq, Text};

// What is said in place of a link.
fn asked(items: &[Item<'_>]) -> Option<What>
    ensures { result ≡ asked_of items.now }
{
    for item in items {
        if item.meaning().is(Meaning::Version) {
            return Some(What::Version);
        }
        if item.meaning().is(Meaning::Help) {
            return Some(What::Help);
        }
    }
    None
}

// The words and what is told, or the first warning where warnings are errors.
fn links(
    alloc: Global,
    fatal: bool,
    names: bool,
    features: Option<FeatureWords>,
    own: Seq<Text>,
    warnings: Seq<Text>,
) -> Result<Answer, OutOfMemory>
    ensures { IfOk result (λ answer. answer ≡ links_of fatal names features own warnings) }
{
    if fatal {
        if let Some(warning) = warnings.get(0) {
            return Ok(Answer::Refuses(Text::new(alloc, warning.as_str())?));
        }
    }
    Ok(Answer::Links {
        own,
        warnings,
        fatal,
        names,
        features,
    })
}

// The words of an input at least, with all else that items ask for.
fn links_with(alloc: Global, items: &[Item<'_>], own: Seq<Text>) -> Result<Answer, OutOfMemory>
    ensures { IfOk result (λ answer. answer ≡ links_with_of items.now own) }
{
    let warnings = warnings(alloc, items)?;
    let features = feature_words(alloc, items)?;
    let names = keeps_names(items);
    links(alloc, fatal(items), names, features, own, warnings)
}

// Whether there is an input behind so many words.
fn has_path(words: &[Text], options: usize) -> bool
    ensures { result ≡ has_path_of (drop options words.now) }
{
    words
        .iter()
        .skip(options)
        .any(|word| !word.as_str().starts_with("-"))
}

// The answer of the files that items name.
fn link<F: Finder>(alloc: Global, shelf: &mut F, items: &[Item<'_>]) -> Result<Answer, Stop>
    ensures answer { IfOk result (λ answer. IsTrue (F.shown shelf.old).tells → answer ≡ linked (F.shown shelf.old).held items.now) }
    ensures same { Same (F.shown shelf.old) (F.shown shelf.new) }
    ensures grows { Grows (F.shown shelf.old) (F.shown shelf.new) }
    ensures cause { IfErr result (λ e. Blames e (F.shown shelf.old) (F.shown shelf.new)) }
{
    let own = own_words(alloc, items)?;
    let options = own.len();
    match with_inputs(alloc, shelf, items, own)? {
        Ok(own) if !has_path(own.as_slice(), options) => {
            Ok(Answer::Refuses(Text::new(alloc, "no input files")?))
        }
        Ok(own) => Ok(links_with(alloc, items, own)?),
        Err(refusal) => Ok(Answer::Refuses(refusal)),
    }
}

// The answer of items.
fn answer<F: Finder>(alloc: Global, shelf: &mut F, items: &[Item<'_>]) -> Result<Answer, Stop>
    ensures answer { IfOk result (λ answer. IsTrue (F.shown shelf.old).tells → answer ≡ answered (F.shown shelf.old).held items.now) }
    ensures same { Same (F.shown shelf.old) (F.shown shelf.new) }
    ensures grows { Grows (F.shown shelf.old) (F.shown shelf.new) }
    ensures cause { IfErr result (λ e. Blames e (F.shown shelf.old) (F.shown shelf.new)) }
{
    if let Some(what) = asked(items) {
        return Ok(Answer::Says(what));
    }
    if let Some(line) = values_fault(items) {
        return Ok(Answer::Refuses(line.text(alloc)?));
    }
    if let Some(line) = lacking(items) {
        return Ok(Answer::Refuses(line.text(alloc)?));
    }
    link(alloc, shelf, items)
}

// The answer of words whose response files stand in their places.
fn answer_words<F: Finder>(alloc: Global, shelf: &mut F, words: &[Text]) -> Result<Answer, Stop>
    ensures answer { IfOk result (λ answer. IsTrue (F.shown shelf.old).tells → answer ≡ cut_and_answered (F.shown shelf.old).held words.now) }
    ensures same { Same (F.shown shelf.old) (F.shown shelf.new) }
    ensures grows { Grows (F.shown shelf.old) (F.shown shelf.new) }
    ensures cause { IfErr result (λ e. Blames e (F.shown shelf.old) (F.shown shelf.new)) }
{
    match cut_words(alloc, words)? {
        Ok(items) => answer(alloc, shelf, items.as_slice()),
        Err(line) => Ok(Answer::Refuses(line.text(alloc)?)),
    }
}

// The words again.
fn copied(alloc: Global, words: &[Text]) -> Result<Seq<Text>, OutOfMemory>
    ensures { IfOk result (λ all. all ≡ words.now) }
{
    let mut all = Seq::new(alloc);
    for word in words {
        all.push(Text::new(alloc, word.as_str())?)?;
    }
    Ok(all)
}

// The answer of words with those of response files in their places, or of a file that is too deep.
fn answer_expanded<F: Finder>(
    alloc: Global,
    shelf: &mut F,
    expanded: Result<Seq<Text>, Text>,
) -> Result<Answer, Stop>
    ensures answer { IfOk result (λ answer. IsTrue (F.shown shelf.old).tells → answer ≡ expanded_and_answered (F.shown shelf.old).held expanded) }
    ensures same { Same (F.shown shelf.old) (F.shown shelf.new) }
    ensures grows { Grows (F.shown shelf.old) (F.shown shelf.new) }
    ensures cause { IfErr result (λ e. Blames e (F.shown shelf.old) (F.shown shelf.new)) }
{
    match expanded {
        Ok(words) => answer_words(alloc, shelf, words.as_slice()),
        Err(name) => {
            let line = Line::new("recursive expansion of: '", name.as_str(), "'", "");
            Ok(Answer::Refuses(line.text(alloc)?))
        }
    }
}

// The answer of words that no flavor stands before.
#[tactic(auto, using(crate::proofs::Held::blamed_before, crate::proofs::Held::same_all, crate::proofs::Held::grows_all))]
fn translate_words<F: Finder>(alloc: Global, shelf: &mut F, words: &[Text]) -> Result<Answer, Stop>
    ensures answer { IfOk result (λ answer. IsTrue (F.shown shelf.old).tells → answer ≡ translated_words (F.shown shelf.old).held words.now) }
    ensures same { Same (F.shown shelf.old) (F.shown shelf.new) }
    ensures grows { Grows (F.shown shelf.old) (F.shown shelf.new) }
    ensures cause { IfErr result (λ e. Blames e (F.shown shelf.old) (F.shown shelf.new)) }
{
    let all = copied(alloc, words)?;
    let expanded = expand_all(alloc, shelf, all)?;
    answer_expanded(alloc, shelf, expanded)
}

fn is_flavor(name: &str) -> bool
    ensures { result ≡ is_flavor_of name.now }
{
    name == "wasm" || name == "ld-wasm"
}

// The answer of words under a flavor.
fn translate_under<F: Finder>(
    alloc: Global,
    shelf: &mut F,
    name: &str,
    words: &[Text],
) -> Result<Answer, Stop>
    ensures answer { IfOk result (λ answer. IsTrue (F.shown shelf.old).tells → answer ≡ under_flavor (F.shown shelf.old).held name.now words.now) }
    ensures same { Same (F.shown shelf.old) (F.shown shelf.new) }
    ensures grows { Grows (F.shown shelf.old) (F.shown shelf.new) }
    ensures cause { IfErr result (λ e. Blames e (F.shown shelf.old) (F.shown shelf.new)) }
{
    if is_flavor(name) {
        return translate_words(alloc, shelf, words);
    }
    let line = Line::new("unknown flavor: ", name, "", "");
    Ok(Answer::Refuses(line.text(alloc)?))
}

// The first word, and the others.
fn split_first(words: &[Text]) -> Option<(&str, &[Text])>
    ensures { option_map (λ p. (p.0.now, p.1.now)) result ≡ first_and_rest words.now }
{
    match words {
        [] => None,
        [first, rest @ ..] => Some((first.as_str(), rest)),
    }
}

// The answer of the words behind `-flavor`.
fn translate_flavored<F: Finder>(
    alloc: Global,
    shelf: &mut F,
    words: &[Text],
) -> Result<Answer, Stop>
    ensures answer { IfOk result (λ answer. IsTrue (F.shown shelf.old).tells → answer ≡ flavored (F.shown shelf.old).held words.now) }
    ensures same { Same (F.shown shelf.old) (F.shown shelf.new) }
    ensures grows { Grows (F.shown shelf.old) (F.shown shelf.new) }
    ensures cause { IfErr result (λ e. Blames e (F.shown shelf.old) (F.shown shelf.new)) }
{
    match split_first(words) {
        Some((name, words)) => translate_under(alloc, shelf, name, words),
        None => Ok(Answer::Refuses(Text::new(alloc, "unknown flavor: ")?)),
    }
}

// The words behind `-flavor`, where it is the first.
fn behind_flavor(words: &[Text]) -> Option<&[Text]>
    ensures { option_map (λ w. w.now) result ≡ behind_flavor_of words.now }
{
    match words {
        [] => None,
        [first, rest @ ..] => {
            if first.as_str() == "-flavor" {
                Some(rest)
            } else {
                None
            }
        }
    }
}

/// What drivers' words, which leave out the program's name, stand for. All is held as before.
///
/// Words are judged in this order: the flavor, response files, the cut into options and inputs, whether
/// the version or the help is asked for, values from left to right, what all words together lack, files
/// from left to right, and warnings where they are errors. The first that is at fault decides.
///
/// # Errors
/// The name of a response file or a start file that is there and can't be read, or of a response file
/// that isn't text; want of memory.
pub fn translate<F: Finder>(alloc: Global, shelf: &mut F, words: &[Text]) -> Result<Answer, Stop>
    ensures answer { IfOk result (λ answer. IsTrue (F.shown shelf.old).tells → answer ≡ translated (F.shown shelf.old).held words.now) }
    ensures same { Same (F.shown shelf.old) (F.shown shelf.new) }
    ensures grows { Grows (F.shown shelf.old) (F.shown shelf.new) }
    ensures cause { IfErr result (λ e. Blames e (F.shown shelf.old) (F.shown shelf.new)) }
{
    match behind_flavor(words) {
        Some(words) => translate_flavored(alloc, shelf, words),
        None => translate_words(alloc, shelf, words),
    }
}
