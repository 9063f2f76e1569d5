//! What is asked of a symbol.
ghost use Rattle.std.specs.Prelude.{◌≡◌, ◌<◌, length, IfSome};
ghost use Rattle.name_cases.specs.Beside.{both_contradict, input_of, number_at};
ghost use Rattle.name_cases.specs.Rows.{RowsFit, names_shown, rows_shown, symbol_in};

use crate::look::{breaks, clash, imports_differ, mismatches};
use crate::question::Question;
use crate::rows::{Rows, Spot};
use wl_base::InputId;

impl Rows<'_> {
    /// The number of the name of a symbol, where it is an entry that counts.
    pub(crate) fn counted(&self, question: Question, spot: Spot) -> Option<u32>
        requires { RowsFit self.now }
        ensures value { result ≡ number_at question (names_shown self.now) (rows_shown self.now) spot }
        ensures below { IfSome result (λ n. n < length (names_shown self.now)) }
    {
        let entry = self.entry(spot)?;
        let counts = match question {
            Question::Clashes | Question::Imports | Question::Judged | Question::Mismatches => true,
            Question::Duplicates => entry.defines && entry.class == 0,
            Question::Definitions => entry.defines,
        };
        if counts { entry.number } else { None }
    }

    /// The input of a symbol, and 0 where there is none.
    pub(crate) fn input(&self, spot: Spot) -> InputId
        requires { RowsFit self.now }
        ensures { result ≡ input_of (symbol_in (rows_shown self.now) spot) }
    {
        match self.entry(spot) {
            Some(entry) => entry.input,
            None => 0,
        }
    }

    /// Whether two symbols can't stand together, by what is asked.
    pub(crate) fn contradict(&self, question: Question, first: Spot, other: Spot) -> bool
        requires { RowsFit self.now }
        ensures { result ≡ both_contradict question (symbol_in (rows_shown self.now) first) (symbol_in (rows_shown self.now) other) }
    {
        match question {
            Question::Clashes => match (self.look(first), self.look(other)) {
                (Some(a), Some(b)) => clash(a, b),
                _ => false,
            },
            Question::Imports => match (self.look(first), self.look(other)) {
                (Some(a), Some(b)) => imports_differ(a.explicit, b.explicit),
                _ => false,
            },
            Question::Mismatches => match (self.look(first), self.look(other)) {
                (Some(a), Some(b)) => mismatches(a, b),
                _ => false,
            },
            Question::Judged | Question::Definitions => {
                match (self.look(first), self.look(other)) {
                    (Some(a), Some(b)) => breaks(a, b),
                    _ => false,
                }
            }
            Question::Duplicates => match (self.entry(first), self.entry(other)) {
                (Some(a), Some(b)) => !(a.input == b.input && a.place == b.place),
                _ => false,
            },
        }
    }
}
