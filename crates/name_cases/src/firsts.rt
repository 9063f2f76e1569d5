//! The least entries of names, in a column by the names' numbers.
ghost use Rattle.std.specs.Prelude.{◌≡◌, [], length, filter, slice_index_or, replicate, IfOk};
ghost use Rattle.name_entries.specs.name_rules.Entries.{is_entry};
ghost use Rattle.name_cases.specs.Beside.{number_at};
ghost use Rattle.name_cases.specs.Firsts.{Adds, AreFirsts, noted};
ghost use Rattle.name_cases.specs.Search.{before, compared};
ghost use Rattle.name_cases.specs.Least.{HasFirsts};
ghost use Rattle.name_cases.specs.Rows.{RowsFit, entries_in, names_shown, rows_shown};

use crate::question::Question;
use crate::rows::{Rows, Spot};
use std::alloc::Global;
use wl_base::{OutOfMemory, Seq};

/// A column of this length that tells nothing.
fn blank(alloc: Global, len: usize) -> Result<Vec<Option<Spot>>, OutOfMemory>
    ensures { IfOk result (λ column. column.items ≡ replicate len None) }
{
    let column = vec![in alloc; None; len]?;
    Ok(column)
}

impl Rows<'_> {
    /// Puts a symbol into the column, where it counts and is the first of its name.
    fn note(&self, question: Question, spot: Spot, firsts: &mut [Option<Spot>])
        requires fits { RowsFit self.now }
        requires len { length firsts.old ≡ length (names_shown self.now) }
        ensures { firsts.new ≡ noted firsts.old spot (number_at question (names_shown self.now) (rows_shown self.now) spot) }
    {
        if let Some(number) = self.counted(question, spot) {
            if firsts[number as usize].is_none() {
                firsts[number as usize] = Some(spot);
            }
        }
    }

    /// Puts the symbols of a row into the column.
    fn note_row(&self, question: Question, row: u32, firsts: &mut [Option<Spot>])
        requires fits { RowsFit self.now }
        requires len { length firsts.old ≡ length (names_shown self.now) }
        ensures { Adds question (names_shown self.now) (rows_shown self.now) firsts.old firsts.new
            (filter is_entry (slice_index_or (rows_shown self.now) row [])) }
    {
        for place in 0..self.len(row) {
            self.note(question, Spot { row, place }, firsts);
        }
    }

    /// Puts the symbols of all rows into the column.
    fn note_rows(&self, question: Question, firsts: &mut [Option<Spot>])
        requires fits { RowsFit self.now }
        requires len { length firsts.old ≡ length (names_shown self.now) }
        ensures { Adds question (names_shown self.now) (rows_shown self.now) firsts.old firsts.new (entries_in (rows_shown self.now)) }
    {
        for row in 0..self.count() {
            self.note_row(question, row, firsts);
        }
    }

    /// Puts the definitions of all rows into the column, where these are asked for first.
    fn note_definitions(&self, question: Question, firsts: &mut [Option<Spot>])
        requires fits { RowsFit self.now }
        requires len { length firsts.old ≡ length (names_shown self.now) }
        ensures are { AreFirsts question (names_shown self.now) (rows_shown self.now) [] firsts.old
            → AreFirsts question (names_shown self.now) (rows_shown self.now) (before question (entries_in (rows_shown self.now))) firsts.new }
        ensures len { length firsts.new ≡ length (names_shown self.now) }
    {
        match question {
            Question::Judged | Question::Mismatches => {
                self.note_rows(Question::Definitions, firsts);
            }
            Question::Clashes | Question::Duplicates | Question::Imports | Question::Definitions =>
                {}
        }
    }

    /// Puts the symbols of all rows into the column, and before them the definitions where these are asked for first.
    fn note_all(&self, question: Question, firsts: &mut [Option<Spot>])
        requires fits { RowsFit self.now }
        requires len { length firsts.old ≡ length (names_shown self.now) }
        ensures { AreFirsts question (names_shown self.now) (rows_shown self.now) [] firsts.old
            → AreFirsts question (names_shown self.now) (rows_shown self.now) (compared question (entries_in (rows_shown self.now))) firsts.new }
    {
        self.note_definitions(question, firsts);
        self.note_rows(question, firsts);
    }

    /// Where the least entry of each name stands that counts, by the name's number.
    pub(crate) fn firsts(
        &self,
        alloc: Global,
        question: Question,
    ) -> Result<Seq<Option<Spot>>, OutOfMemory>
        requires { RowsFit self.now }
        ensures { IfOk result (λ column. HasFirsts question self.now column) }
    {
        let mut firsts = blank(alloc, self.name_count() as usize)?;
        self.note_all(question, firsts.as_mut_slice());
        Ok(Seq::from_vec(firsts))
    }
}
