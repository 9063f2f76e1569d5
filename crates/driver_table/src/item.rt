//! What the words say, one after the other.

use crate::meaning::Meaning;
use std::marker::Model;

/// An input or an option, with its value where it takes one, and the word that says it.
#[derive(Drop)]
pub struct Item<'a> {
    meaning: Meaning,
    value: &'a str,
    spelling: &'a str,
}

impl<'a> Model for Item<'a> {
    ghost use Rattle.driver_table.specs.Items.{Said};

    ghost Value = { Said };

    ghost view = { λ i. record { meaning = i.meaning; value = i.value.now; spelling = i.spelling.now } };
}

impl<'a> Item<'a> {
    ghost use Rattle.std.specs.Prelude.{◌≡◌};
    ghost use Rattle.driver_table.specs.Items.{item};

    /// The item of these parts.
    pub fn new(meaning: Meaning, value: &'a str, spelling: &'a str) -> Item<'a>
        ensures { result ≡ item meaning value.now spelling.now }
    {
        Item {
            meaning,
            value,
            spelling,
        }
    }

    /// What the item means.
    pub fn meaning(&self) -> Meaning
        ensures { result ≡ self.now.meaning }
    {
        self.meaning
    }

    /// Its value, or the input; empty where there is none.
    pub fn value(&self) -> &'a str
        ensures { result.now ≡ self.now.value }
    {
        self.value
    }

    /// The word that says it, and of an option with a value in the next word the option alone.
    pub fn spelling(&self) -> &'a str
        ensures { result.now ≡ self.now.spelling }
    {
        self.spelling
    }
}
