//! A case: words of a driver, the files that there are, and what the words stand for. The cases were tried with clang, rustc, cmake and meson in
//! front of the reference linker.

use driver_words::{Answer, What, tokens, translate};
use link_plan::FeatureWords;
use std::alloc::Global;
use wl_base::{Name, OutOfMemory, Seq, Text};
use wl_outside::{Held, MemShelf, names_differ};

/// What words are to stand for.
#[derive(Clone, Copy)]
pub enum Want {
    /// These own words.
    Own(&'static str),
    /// This of names and features, as `spelled` says it, beside any own words.
    Asked(&'static str),
    /// These own words, of a link whose warnings are errors.
    Strict(&'static str),
    /// These own words, with these lines of warnings.
    Warned(&'static str, &'static str),
    /// A refusal by this line.
    Line(&'static str),
    /// A text in place of a link.
    Said(What),
}

/// A file that there is, and what it holds.
pub type File = (&'static str, &'static str);

fn shelf(alloc: Global, files: &[File]) -> Option<MemShelf> {
    let mut all = Seq::new(alloc);
    for (name, text) in files {
        let name = Text::new(alloc, name).ok()?;
        let bytes = Seq::from_slice(alloc, text.as_bytes()).ok()?;
        all.push(Held { name, bytes }).ok()?;
    }
    if !names_differ(all.as_slice()) {
        return None;
    }
    Some(MemShelf::new(alloc, all, Seq::new(alloc)))
}

/// The words of a line, by the quoting of response files.
fn words_of(alloc: Global, line: &str) -> Option<Seq<Text>> {
    let mut words = Seq::new(alloc);
    for word in tokens(alloc, line.as_bytes()).ok()?.as_slice() {
        let text = std::str::from_utf8(word.as_slice()).ok()?;
        words.push(Text::new(alloc, text).ok()?).ok()?;
    }
    Some(words)
}

/// Whether the texts are the words of the line.
fn are(alloc: Global, texts: &[Text], line: &str) -> Option<bool> {
    let words = words_of(alloc, line)?;
    if words.len() != texts.len() {
        return Some(false);
    }
    for (word, text) in words.as_slice().iter().zip(texts) {
        if word.as_str() != text.as_str() {
            return Some(false);
        }
    }
    Some(true)
}

/// The texts, each with a line of its own.
fn lines(alloc: Global, texts: &[Text]) -> Result<Text, OutOfMemory> {
    let mut all = String::new(alloc);
    for text in texts {
        all.push_str(text.as_str())?;
        all.push_str("\n")?;
    }
    Ok(Text::from_string(all))
}

/// Each name behind a sign.
fn add_names(text: &mut String, sign: &str, names: &[Name]) -> Result<(), OutOfMemory> {
    for name in names {
        text.push_str(sign)?;
        text.push_str(std::str::from_utf8(name.as_slice()).unwrap_or("?"))?;
    }
    Ok(())
}

/// What is said of features: `checked`, `allowed` with the features that are, the others behind `+`, and `kept`.
fn add_features(text: &mut String, words: &FeatureWords) -> Result<(), OutOfMemory> {
    if words.checked {
        text.push_str(" checked")?;
    }
    if let Some(allowed) = &words.allowed {
        text.push_str(" allowed")?;
        add_names(text, " ", allowed.as_slice())?;
    }
    add_names(text, " +", words.extra.as_slice())?;
    if words.kept {
        text.push_str(" kept")?;
    }
    Ok(())
}

/// What is asked in words: `names` where there is a section of them, and what is said of features where anything is.
fn spelled(
    alloc: Global,
    names: bool,
    features: &Option<FeatureWords>,
) -> Result<Text, OutOfMemory> {
    let mut text = String::from_str(alloc, if names { "names" } else { "no names" })?;
    match features {
        Some(words) => add_features(&mut text, words)?,
        None => text.push_str(" nor features")?,
    }
    Ok(Text::from_string(text))
}

fn is_wanted(alloc: Global, answer: &Answer, want: Want) -> Option<bool> {
    match (answer, want) {
        (
            Answer::Links {
                own,
                warnings,
                fatal,
                names: _,
                features: _,
            },
            Want::Own(line),
        ) => { Some(!*fatal && warnings.is_empty() && are(alloc, own.as_slice(), line)?) }
        (
            Answer::Links {
                own,
                warnings,
                fatal,
                names: _,
                features: _,
            },
            Want::Strict(line),
        ) => { Some(*fatal && warnings.is_empty() && are(alloc, own.as_slice(), line)?) }
        (
            Answer::Links {
                own,
                warnings,
                fatal,
                names: _,
                features: _,
            },
            Want::Warned(line, told),
        ) => {
            let told_lines = lines(alloc, warnings.as_slice()).ok()?;
            Some(!*fatal && told_lines.as_str() == told && are(alloc, own.as_slice(), line)?)
        }
        (
            Answer::Links {
                own: _,
                warnings: _,
                fatal: _,
                names,
                features,
            },
            Want::Asked(line),
        ) => {
            let spelled = spelled(alloc, *names, features).ok()?;
            Some(spelled.as_str() == line)
        }
        (Answer::Refuses(text), Want::Line(line)) => Some(text.as_str() == line),
        (Answer::Says(what), Want::Said(said)) => Some(*what == said),
        _ => Some(false),
    }
}

/// Whether the words of a line stand for what is wanted, where these files are all that there is.
fn stand_for(alloc: Global, files: &[File], line: &str, want: Want) -> Option<bool> {
    let mut shelf = shelf(alloc, files)?;
    let words = words_of(alloc, line)?;
    let answer = translate(alloc, &mut shelf, words.as_slice()).ok()?;
    is_wanted(alloc, &answer, want)
}

/// Whether each line of words stands for what is wanted.
pub fn all_stand_for(alloc: Global, cases: &[(&[File], &'static str, Want)]) -> bool {
    for (files, line, want) in cases {
        if stand_for(alloc, files, line, *want) != Some(true) {
            return false;
        }
    }
    true
}

/// No file.
pub const NONE: &[File] = &[];
