//! The least case.
ghost use Rattle.std.specs.Prelude.{◌≡◌, ◌<◌, length, Some, is_some, option_map, IfOk};
ghost use Rattle.name_entries.specs.name_rules.Entries.{InputSymbol, entries};
ghost use Rattle.name_entries.specs.name_rules.Cases.{clash, other_import, broken, loose_clash, has_other_type, duplicate};
ghost use Rattle.name_entries.specs.Fits.{Fits};
ghost use Rattle.name_entries.specs.View.{entry_at};
ghost use Rattle.name_cases.specs.Beside.{spot_case};
ghost use Rattle.name_cases.specs.Least.{AreJudges, IsReady, least_case, row_case};
ghost use Rattle.name_cases.specs.Rows.{RowsFit, names_shown, rows_shown};
ghost use Rattle.name_cases.specs.Told.{clash_told, duplicate_told, IsNamed};

use crate::question::Question;
use crate::rows::{Rows, Spot};
use made_symbols::Mode;
use name_entries::{Entries, PairCase};
use rayon::prelude::*;
use std::alloc::Global;
use std::thread::Threads;
use wl_base::{OutOfMemory, Seq};
use wl_fan::Workers;

/// How many symbols are worth threads.
const LEAST_SYMBOLS: u32 = 50_000;

/// How few rows are worth a thread of their own, where there are threads.
const LEAST_ROWS: usize = 8;

/// The symbols of a link, beside the least entry of each name that counts.
#[derive(Clone, Copy)]
struct Comparison<'a> {
    rows: Rows<'a>,
    question: Question,
    firsts: &'a [Option<Spot>],
}

impl Comparison<'_> {
    /// The case that a symbol is.
    fn case_at(&self, spot: Spot) -> Option<PairCase>
        requires { IsReady self.now }
        ensures { result ≡ spot_case self.now.question (names_shown self.now.rows) (rows_shown self.now.rows) self.now.firsts.now spot }
    {
        let number = self.rows.counted(self.question, spot)?;
        let first = self.firsts[number as usize]?;
        if first == spot || !self.rows.contradict(self.question, first, spot) {
            return None;
        }
        Some(PairCase {
            name: number,
            first: self.rows.input(first),
            other: self.rows.input(spot),
        })
    }

    /// The least case of a row, by place.
    fn case_in(&self, row: u32) -> Option<PairCase>
        requires { IsReady self.now }
        ensures { result ≡ row_case self.now.question self.now.rows row }
    {
        for place in 0..self.rows.len(row) {
            if let Some(case) = self.case_at(Spot { row, place }) {
                return Some(case);
            }
        }
        None
    }
}

/// The least case of all rows, one after the other.
fn least_alone(comparison: &Comparison<'_>) -> Option<PairCase>
    requires { IsReady comparison.now }
    ensures { result ≡ least_case comparison.now.question comparison.now.rows }
{
    for row in 0..comparison.rows.count() {
        if let Some(case) = comparison.case_in(row) {
            return Some(case);
        }
    }
    None
}

/// The least case of all rows: of each row by a thread, and the first of these.
fn least_by_threads<R: Threads + Sync>(rt: &R, comparison: &Comparison<'_>) -> Option<PairCase>
    requires { IsReady comparison.now }
    ensures { result ≡ least_case comparison.now.question comparison.now.rows }
{
    (0..comparison.rows.count())
        .into_par_iter()
        .with_min_len(LEAST_ROWS)
        .map(
            |row: u32| -> Option<PairCase>
                requires { IsReady comparison.now }
                ensures { result ≡ row_case comparison.entry.now.question comparison.entry.now.rows row }
            { comparison.case_in(row) },
        )
        .find_first(
            rt,
            |case: &Option<PairCase>| -> bool
                ensures { result ≡ is_some case.now }
            { case.is_some() },
        )
        .flatten()
}

/// The least case of all rows, by threads where they are worth it.
fn least<R: Threads + Sync>(
    rt: &R,
    comparison: &Comparison<'_>,
    workers: Workers,
) -> Option<PairCase>
    requires { IsReady comparison.now }
    ensures { result ≡ least_case comparison.now.question comparison.now.rows }
{
    if workers.count() > 1 && comparison.rows.have_symbols(LEAST_SYMBOLS) {
        least_by_threads(rt, comparison)
    } else {
        least_alone(comparison)
    }
}

/// The least case in the rows of a link.
fn first_case<R: Threads + Sync>(
    rt: &R,
    alloc: Global,
    rows: Rows<'_>,
    question: Question,
    workers: Workers,
) -> Result<Option<PairCase>, OutOfMemory>
    requires { RowsFit rows }
    ensures { IfOk result (λ c. c ≡ least_case question rows.entry) }
{
    let firsts = rows.firsts(alloc, question)?;
    let comparison = Comparison {
        rows,
        question,
        firsts: firsts.as_slice(),
    };
    Ok(least(rt, &comparison, workers))
}

/// The least entry that clashes with the least one of its name: they differ in kind or type, or both name imports themselves and name
/// different ones. `None` exactly where there is no clash. Several workers share a large list of symbols by threads of `rayon`'s own.
pub fn first_clash<R: Threads + Sync>(
    rt: &R,
    alloc: Global,
    view: Entries<'_>,
    mode: Mode,
    workers: Workers,
) -> Result<Option<PairCase>, OutOfMemory>
    requires { Fits mode view }
    ensures is { IfOk result (λ c. option_map (clash_told view.entry.names.now.names) c ≡ clash (entries mode view.entry.objects.now)) }
    ensures named { IfOk result (λ c. IsNamed view.entry.names.now.names c) }
{
    let rows = Rows { view, mode };
    first_case(rt, alloc, rows, Question::Clashes, workers)
}

/// The least entry that names another import than the least one of its name.
fn first_other_import<R: Threads + Sync>(
    rt: &R,
    alloc: Global,
    view: Entries<'_>,
    mode: Mode,
    workers: Workers,
) -> Result<Option<PairCase>, OutOfMemory>
    requires { Fits mode view }
    ensures is { IfOk result (λ c. option_map (clash_told view.entry.names.now.names) c ≡ other_import (entries mode view.entry.objects.now)) }
    ensures named { IfOk result (λ c. IsNamed view.entry.names.now.names c) }
{
    let rows = Rows { view, mode };
    first_case(rt, alloc, rows, Question::Imports, workers)
}

/// The least entry that differs in kind or type from the one by which it is judged.
fn first_broken<R: Threads + Sync>(
    rt: &R,
    alloc: Global,
    view: Entries<'_>,
    mode: Mode,
    workers: Workers,
) -> Result<Option<PairCase>, OutOfMemory>
    requires { Fits mode view }
    ensures is { IfOk result (λ c. option_map (clash_told view.entry.names.now.names) c ≡ broken (entries mode view.entry.objects.now)) }
    ensures named { IfOk result (λ c. IsNamed view.entry.names.now.names c) }
{
    let rows = Rows { view, mode };
    first_case(rt, alloc, rows, Question::Judged, workers)
}

/// The same for a link that is like lld's: the least entry that names another import than the least one of its name, then the least one
/// that differs in kind or type from the definition, or where there is none from the least one. A function that is no definition may have
/// another type than the definition.
pub fn first_loose_clash<R: Threads + Sync>(
    rt: &R,
    alloc: Global,
    view: Entries<'_>,
    mode: Mode,
    workers: Workers,
) -> Result<Option<PairCase>, OutOfMemory>
    requires { Fits mode view }
    ensures is { IfOk result (λ c. option_map (clash_told view.entry.names.now.names) c ≡ loose_clash (entries mode view.entry.objects.now)) }
    ensures named { IfOk result (λ c. IsNamed view.entry.names.now.names c) }
{
    if let Some(case) = first_other_import(rt, alloc, view, mode, workers)? {
        return Ok(Some(case));
    }
    let broken = first_broken(rt, alloc, view, mode, workers)?;
    Ok(broken)
}

/// By the number of each name, where the entry stands by which the others of the name are judged in a link that is like lld's.
#[derive(Drop)]
pub struct Judges {
    pub(crate) firsts: Seq<Option<Spot>>,
}

/// The entries by which the others of their names are judged.
pub fn judges_of(alloc: Global, view: Entries<'_>, mode: Mode) -> Result<Judges, OutOfMemory>
    requires { Fits mode view }
    ensures { IfOk result (λ judges. AreJudges mode view.entry.objects.now view.entry.names.now.names judges) }
{
    let rows = Rows { view, mode };
    let firsts = rows.firsts(alloc, Question::Mismatches)?;
    Ok(Judges { firsts })
}

/// Whether the symbol at a place of an object is a function that is no definition, and has another type than the definition of its name.
pub fn has_other_type(
    judges: &Judges,
    view: Entries<'_>,
    mode: Mode,
    object: u32,
    place: u32,
) -> bool
    requires fits { Fits mode view }
    requires judges { AreJudges mode view.objects.now view.names.now.names judges.now }
    requires there { object < length view.objects.now }
    ensures { (e : InputSymbol) → entry_at view.entry.objects.now object place ≡ Some e → result ≡ has_other_type (entries mode view.entry.objects.now) e }
{
    let comparison = Comparison {
        rows: Rows { view, mode },
        question: Question::Mismatches,
        firsts: judges.firsts.as_slice(),
    };
    let row = object + 1;
    comparison.case_at(Spot { row, place }).is_some()
}

/// The least strong definition of a name that has a lesser one, with the least one. `None` exactly where each name has one at most.
/// Several workers share it as in [`first_clash`].
pub fn first_duplicate<R: Threads + Sync>(
    rt: &R,
    alloc: Global,
    view: Entries<'_>,
    mode: Mode,
    workers: Workers,
) -> Result<Option<PairCase>, OutOfMemory>
    requires { Fits mode view }
    ensures is { IfOk result (λ c. option_map (duplicate_told view.entry.names.now.names) c ≡ duplicate (entries mode view.entry.objects.now)) }
    ensures named { IfOk result (λ c. IsNamed view.entry.names.now.names c) }
{
    let rows = Rows { view, mode };
    first_case(rt, alloc, rows, Question::Duplicates, workers)
}
