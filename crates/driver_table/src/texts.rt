//! Parts of texts, and lines of parts.
ghost use Rattle.std.specs.Prelude.{◌≡◌, IfOk};
ghost use Rattle.std.specs.Option.{option_map};
ghost use Rattle.driver_table.specs.Texts.{stripped};

use std::alloc::Global;
use std::marker::Model;
use wl_base::{OutOfMemory, Text};

/// What stands behind the front, where the text begins with it.
#[tactic(auto, using(crate::proofs::Fronts::strip_text))]
pub fn strip<'a>(text: &'a str, front: &str) -> Option<&'a str>
    ensures { option_map (λ t. t.now) result ≡ stripped front.now text.now }
{
    text.strip_prefix(front)
}

/// A line in four parts, which are put together where it is told.
#[derive(Drop)]
pub struct Line<'a> {
    first: &'a str,
    second: &'a str,
    third: &'a str,
    fourth: &'a str,
}

impl<'a> Model for Line<'a> {
    ghost use Rattle.std.specs.Prelude.{List, ℕ};
    ghost use Rattle.driver_table.specs.Texts.{line};

    ghost Value = { List ℕ };

    ghost view = { λ l. line l.first.now l.second.now l.third.now l.fourth.now };
}

impl<'a> Line<'a> {
    ghost use Rattle.std.specs.Prelude.{◌≡◌, IfOk};
    ghost use Rattle.driver_table.specs.Texts.{line};

    /// The line of these parts.
    pub fn new(first: &'a str, second: &'a str, third: &'a str, fourth: &'a str) -> Line<'a>
        ensures { result ≡ line first.now second.now third.now fourth.now }
    {
        Line {
            first,
            second,
            third,
            fourth,
        }
    }

    /// The line as a text of its own.
    ///
    /// # Errors
    /// Want of memory.
    pub fn text(&self, alloc: Global) -> Result<Text, OutOfMemory>
        ensures { IfOk result (λ text. text ≡ self.now) }
    {
        let mut text = String::from_str(alloc, self.first)?;
        text.push_str(self.second)?;
        text.push_str(self.third)?;
        text.push_str(self.fourth)?;
        Ok(Text::from_string(text))
    }
}
