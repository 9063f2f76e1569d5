//! What the words say, one after the other.

use crate::kind::Kind;
use std::marker::Model;

/// An option, an input or `--`, with the place of its word, and the value where it takes one.
#[derive(Drop)]
pub struct Item<'a> {
    kind: Kind,
    at: u32,
    value: &'a str,
}

impl<'a> Model for Item<'a> {
    ghost use Rattle.link_words.specs.Items.{Said};

    ghost Value = { Said };

    ghost view = { λ i. record { kind = i.kind; at = i.at; value = i.value.now } };
}

impl<'a> Item<'a> {
    ghost use Rattle.std.specs.Prelude.{◌≡◌};

    /// The item of these parts.
    pub fn new(kind: Kind, at: u32, value: &'a str) -> Item<'a>
        ensures { result ≡ record { kind = kind; at = at; value = value.now } }
    {
        Item { kind, at, value }
    }

    /// What the item says.
    pub fn kind(&self) -> Kind
        ensures { result ≡ self.now.kind }
    {
        self.kind
    }

    /// The place of its word, counted from 0; of an option with a value, that of the option.
    pub fn at(&self) -> u32
        ensures { result ≡ self.now.at }
    {
        self.at
    }

    /// Its value, or the input; empty where there is none.
    pub fn value(&self) -> &'a str
        ensures { result.now ≡ self.now.value }
    {
        self.value
    }
}
