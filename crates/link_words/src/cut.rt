//! Words cut into items.
ghost use Rattle.std.specs.Prelude.{◌≡◌, ◌≤◌, ◌<◌, ◌^◌, ℕ, length, All, IfOk};
ghost use Rattle.std.specs.Option.{option_map};
ghost use Rattle.link_words.specs.Cut.{step, begun, said_alone, said_long, valued, numbered, cut_of, begins_with_dash, split_of, parts_of, WaitsBelow, IsPlaced};

use crate::item::Item;
use crate::kind::Kind;
use crate::numeral::number;
use crate::options::{Form, Rule, Takes, option_of};
use crate::range::Range;
use std::alloc::Global;
use wl_base::{OutOfMemory, Seq, Text, Usage};

/// How the next word counts.
#[derive(Clone, Copy)]
pub enum Next {
    /// As an option, where it begins with `-`, and else as an input.
    Free,
    /// As the value of the option at a place.
    Value { kind: Kind, form: Form, at: u32 },
    /// As an input, behind `--`.
    Input,
}

/// The items of the words, up to the first word that is at fault, and the fault there.
pub fn cut_words<'a>(
    alloc: Global,
    words: &'a [Text],
) -> Result<(Seq<Item<'a>>, Option<Usage>), OutOfMemory>
    requires { length words.now < 2 ^ 32 }
    ensures cut { IfOk result (λ cut. cut ≡ cut_of words.now) }
    // An item is of one word at least, and its place is that of a word.
    ensures count { IfOk result (λ cut. length cut.0 ≤ length words.now) }
    ensures places { IfOk result (λ cut. All (λ item. item.at < length words.now) cut.0) }
{
    let mut items = Seq::new(alloc);
    let mut next = Next::Free;
    for (at, word) in words.iter().enumerate() {
        match read(next, at as u32, word.as_str()) {
            Ok((item, then)) => {
                if let Some(item) = item {
                    items.push(item)?;
                }
                next = then;
            }
            Err(fault) => return Ok((items, Some(fault))),
        }
    }
    match next {
        Next::Value { at, .. } => Ok((items, Some(Usage::MissingValue { at }))),
        _ => Ok((items, None)),
    }
}

// What a word says, and how the next one counts.
fn read<'a>(next: Next, at: u32, word: &'a str) -> Result<(Option<Item<'a>>, Next), Usage>
    ensures said { result ≡ step next at word.now }
    ensures placed { (bound : ℕ) → at < bound → WaitsBelow bound next → IfOk result (IsPlaced bound) }
{
    match next {
        Next::Free => begin(at, word),
        Next::Value { kind, form, at } => Ok((Some(with_value(kind, form, at, word)?), Next::Free)),
        Next::Input => Ok((Some(Item::new(Kind::Input, at, word)), Next::Input)),
    }
}

// What a word says that may be an option.
fn begin<'a>(at: u32, word: &'a str) -> Result<(Option<Item<'a>>, Next), Usage>
    ensures said { result ≡ begun at word.now }
    ensures placed { (bound : ℕ) → at < bound → IfOk result (IsPlaced bound) }
{
    if !is_option(word) {
        return Ok((Some(Item::new(Kind::Input, at, word)), Next::Free));
    }
    if word == "--" {
        return Ok((Some(Item::new(Kind::OnlyInputs, at, "")), Next::Input));
    }
    match split_value(word) {
        Some((name, value)) => with_own_value(at, option_of(name), value),
        None => alone(at, option_of(word)),
    }
}

// What an option says that stands alone in its word.
fn alone<'a>(at: u32, rule: Option<Rule>) -> Result<(Option<Item<'a>>, Next), Usage>
    ensures said { result ≡ said_alone at rule }
    ensures placed { (bound : ℕ) → at < bound → IfOk result (IsPlaced bound) }
{
    let Some(Rule { kind, takes }) = rule else {
        return Err(Usage::UnknownOption { at });
    };
    match takes {
        Takes::Nothing => Ok((Some(Item::new(kind, at, "")), Next::Free)),
        Takes::Next(form) | Takes::Long(form) => Ok((None, Next::Value { kind, form, at })),
    }
}

// What an option says whose value stands in its word.
fn with_own_value<'a>(
    at: u32,
    rule: Option<Rule>,
    value: &'a str,
) -> Result<(Option<Item<'a>>, Next), Usage>
    ensures said { result ≡ said_long at value.now rule }
    ensures placed { (bound : ℕ) → at < bound → IfOk result (IsPlaced bound) }
{
    match rule {
        Some(
            Rule {
                kind,
                takes: Takes::Long(form),
            },
        ) => Ok((Some(with_value(kind, form, at, value)?), Next::Free)),
        _ => Err(Usage::UnknownOption { at }),
    }
}

fn is_option(word: &str) -> bool
    ensures { result ≡ begins_with_dash word.now }
{
    matches!(word.as_bytes(), [b'-', ..])
}

// The parts of `--x=v`.
fn split_value(word: &str) -> Option<(&str, &str)>
    ensures { option_map (λ p. (p.0.now, p.1.now)) result ≡ split_of word.now }
{
    match word.as_bytes() {
        [b'-', b'-', ..] => parts(word),
        _ => None,
    }
}

// The parts around the first `=`.
fn parts(word: &str) -> Option<(&str, &str)>
    ensures { option_map (λ p. (p.0.now, p.1.now)) result ≡ parts_of word.now }
{
    word.split_once('=')
}

// An option with its value.
fn with_value<'a>(kind: Kind, form: Form, at: u32, value: &'a str) -> Result<Item<'a>, Usage>
    ensures said { result ≡ valued kind form at value.now }
    ensures place { IfOk result (λ item. item.at ≡ at) }
{
    match form {
        Form::Text => Ok(Item::new(kind, at, value)),
        Form::Machine if value == "wasm32" => Ok(Item::new(kind, at, value)),
        Form::Machine => Err(Usage::UnknownOption { at }),
        Form::Number(range) => with_number(kind, range, at, value),
        Form::StackSize => match parts(value) {
            Some(("stack-size", size)) => with_number(kind, Range::Stack, at, size),
            _ => Err(Usage::UnknownOption { at }),
        },
    }
}

// An option with a number.
fn with_number<'a>(kind: Kind, range: Range, at: u32, value: &'a str) -> Result<Item<'a>, Usage>
    ensures said { result ≡ numbered kind range at value.now }
    ensures place { IfOk result (λ item. item.at ≡ at) }
{
    match (number(range, value.as_bytes()), range) {
        (Some(_), _) => Ok(Item::new(kind, at, value)),
        (None, Range::Workers) => Err(Usage::BadThreads { at }),
        (None, _) => Err(Usage::BadNumber { at }),
    }
}
