//! Words cut into items.
ghost use Rattle.std.specs.Prelude.{◌≡◌, IfOk};
ghost use Rattle.std.specs.Option.{option_map};
ghost use Rattle.driver_table.specs.Rows.{meant as meaning_of, alone_row, equals_row, row_of, either, letter_of};
ghost use Rattle.driver_table.specs.Cut.{parts_of, valued as valued_of, name_of, alone as alone_of, waiting as waiting_of, behind_equals, for_bitcode as for_bitcode_of, lettered as lettered_of, option_in as option_of, free_word as free_word_of, step as step_of, missing as missing_of, cut_of};

use crate::item::Item;
use crate::meaning::Meaning;
use crate::rows::{alone, letter, with_equals, with_next};
use crate::texts::{Line, strip};
use std::alloc::Global;
use wl_base::{OutOfMemory, Seq, Text};

/// What a word begins.
#[derive(Drop)]
pub enum Begun<'a> {
    /// An item, whole.
    Whole(Item<'a>),
    /// An option whose value is the next word.
    Waits(Item<'a>),
}

/// The items of the words, or the line that refuses them.
///
/// # Errors
/// Want of memory.
pub fn cut_words<'a>(
    alloc: Global,
    words: &'a [Text],
) -> Result<Result<Seq<Item<'a>>, Line<'a>>, OutOfMemory>
    ensures { IfOk result (λ cut. cut ≡ cut_of words.now) }
{
    let mut items = Seq::new(alloc);
    let mut waiting = None;
    for word in words {
        match step(&waiting, word.as_str()) {
            Some(Begun::Whole(item)) => {
                if !item.meaning().is(Meaning::Drop) {
                    items.push(item)?;
                }
                waiting = None;
            }
            Some(Begun::Waits(item)) => waiting = Some(item),
            None => {
                return Ok(Err(Line::new("unknown argument: ", word.as_str(), "", "")));
            }
        }
    }
    match missing(&waiting) {
        Some(line) => Ok(Err(line)),
        None => Ok(Ok(items)),
    }
}

// The line that refuses an option whose value is missing, where no word is left.
fn missing<'a>(waiting: &Option<Item<'a>>) -> Option<Line<'a>>
    ensures { result ≡ missing_of waiting.now }
{
    match waiting {
        Some(item) => Some(Line::new(item.spelling(), ": missing argument", "", "")),
        None => None,
    }
}

// A word, where an option may wait for its value.
fn step<'a>(waiting: &Option<Item<'a>>, word: &'a str) -> Option<Begun<'a>>
    ensures { result ≡ step_of waiting.now word.now }
{
    match waiting {
        Some(item) => Some(Begun::Whole(valued(item.meaning(), word, item.spelling()))),
        None => free_word(word),
    }
}

// A word where an option may stand.
fn free_word<'a>(word: &'a str) -> Option<Begun<'a>>
    ensures { result ≡ free_word_of word.now }
{
    if word == "-" {
        return Some(Begun::Whole(Item::new(Meaning::Input, word, word)));
    }
    match name(word) {
        Some((two, name)) => option_in(word, two, name),
        None => Some(Begun::Whole(Item::new(Meaning::Input, word, word))),
    }
}

// Whether two dashes stand before the name, and the name.
fn name(word: &str) -> Option<(bool, &str)>
    ensures { option_map (λ p. (p.0, p.1.now)) result ≡ name_of word.now }
{
    if let Some(name) = strip(word, "--") {
        return Some((true, name));
    }
    match strip(word, "-") {
        Some(name) => Some((false, name)),
        None => None,
    }
}

// An option.
#[tactic(auto, unfolding(crate::specs::Cut::option_in))]
fn option_in<'a>(word: &'a str, two: bool, name: &'a str) -> Option<Begun<'a>>
    ensures { result ≡ option_of word.now two name.now }
{
    if let Some(meaning) = alone(two, name) {
        return Some(Begun::Whole(Item::new(meaning, "", word)));
    }
    if let Some(meaning) = with_next(two, name) {
        return Some(Begun::Waits(Item::new(meaning, "", word)));
    }
    if let Some(option) = equals(two, word, parts(name)) {
        return Some(option);
    }
    if for_bitcode(two, name) {
        return Some(Begun::Whole(Item::new(Meaning::Drop, "", word)));
    }
    if two {
        return None;
    }
    lettered(word, letter(name))
}

// An option with its value behind `=`.
fn equals<'a>(two: bool, word: &'a str, parts: Option<(&'a str, &'a str)>) -> Option<Begun<'a>>
    ensures { result ≡ behind_equals two word.now (option_map (λ p. (p.0.now, p.1.now)) parts.entry) }
{
    let Some((name, value)) = parts else {
        return None;
    };
    match with_equals(two, name) {
        Some(meaning) => Some(Begun::Whole(Item::new(meaning, value, word))),
        None => None,
    }
}

// The parts around the first `=`.
fn parts(word: &str) -> Option<(&str, &str)>
    ensures { option_map (λ p. (p.0.now, p.1.now)) result ≡ parts_of word.now }
{
    word.split_once('=')
}

// Whether an option concerns bitcode alone, by the way that it begins.
fn for_bitcode(two: bool, name: &str) -> bool
    ensures { result ≡ for_bitcode_of two name.now }
{
    two && (strip(name, "lto-O").is_some() || strip(name, "lto-CGO").is_some())
}

// An option of one letter.
fn lettered<'a>(word: &'a str, letter: Option<(Meaning, &'a str)>) -> Option<Begun<'a>>
    ensures { result ≡ lettered_of word.now (option_map (λ p. (p.0, p.1.now)) letter.entry) }
{
    let Some((meaning, rest)) = letter else {
        return None;
    };
    if rest.is_empty() {
        return Some(Begun::Waits(Item::new(meaning, "", word)));
    }
    Some(Begun::Whole(valued(meaning, rest, word)))
}

// An option with its value.
fn valued<'a>(meaning: Meaning, value: &'a str, spelling: &'a str) -> Item<'a>
    ensures { result ≡ valued_of meaning value.now spelling.now }
{
    if meaning.is(Meaning::Z) {
        if let Some(size) = strip(value, "stack-size=") {
            return Item::new(Meaning::StackSize, size, "-z stack-size");
        }
    }
    Item::new(meaning, value, spelling)
}
