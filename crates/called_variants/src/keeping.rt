//! Of what is told of calls by another type, what a call names.
ghost use Rattle.std.specs.Prelude.{◌≡◌, ◌∷◌, ◌++◌, [], filter, IfOk, OnOk};
ghost use Rattle.link_keys.specs.link_program.link_rules.Program.{Program};
ghost use Rattle.called_variants.specs.Called.{is_called};
ghost use Rattle.called_variants.specs.Marked.{AreMarks, NameThese};

use crate::marks::marks_of;
use crate::naming::variant_name;
use link_keys::{Names, Tables};
use mismatch_rules::Mismatch;
use std::alloc::Global;
use wl_base::{OutOfMemory, Seq};

/// Whether a call names the variant of a function. One whose name has no number, which can't be, is answered as want of memory.
fn is_called(
    alloc: Global,
    names: &Names,
    marks: &[bool],
    mismatch: &Mismatch,
) -> Result<bool, OutOfMemory>
    ghost p: { Program }
    requires { AreMarks names.now.names marks.now p }
    ensures { IfOk result (λ called. called ≡ is_called p mismatch.now) }
{
    let name = variant_name(alloc, &mismatch.called, mismatch.name.as_slice())?;
    let Some(number) = names.find(name.as_slice()) else {
        return Err(OutOfMemory);
    };
    match marks.get(number as usize) {
        Some(called) => Ok(*called),
        None => Err(OutOfMemory),
    }
}

/// Puts one at the end, where a call names its variant.
fn keep(
    alloc: Global,
    names: &Names,
    marks: &[bool],
    mismatch: Mismatch,
    kept: &mut Seq<Mismatch>,
) -> Result<(), OutOfMemory>
    ghost p: { Program }
    requires { AreMarks names.now.names marks.now p }
    ensures { OnOk result (kept.new ≡ kept.old ++ filter (is_called p) (mismatch ∷ [])) }
{
    if !is_called(alloc, names, marks, &mismatch)? {
        return Ok(());
    }
    kept.push(mismatch)?;
    Ok(())
}

/// Those of whose variants a call names one.
fn kept_by(
    alloc: Global,
    names: &Names,
    marks: &[bool],
    told: Seq<Mismatch>,
) -> Result<Seq<Mismatch>, OutOfMemory>
    ghost p: { Program }
    requires { AreMarks names.now.names marks.now p }
    ensures { IfOk result (λ kept. kept ≡ filter (is_called p) told) }
{
    let mut kept = Seq::new(alloc);
    let mut left = told.into_vec().into_iter();
    while let Some(mismatch) = left.next() {
        keep(alloc, names, marks, mismatch, &mut kept)?;
    }
    Ok(kept)
}

/// Those functions of which a call, live or dead, names the variant. The tables are those of a link with loose calls.
pub fn called_only(
    alloc: Global,
    tables: &Tables,
    names: &Names,
    told: Seq<Mismatch>,
) -> Result<Seq<Mismatch>, OutOfMemory>
    ghost p: { Program }
    requires { NameThese names.now.names tables.now p }
    ensures { IfOk result (λ kept. kept ≡ filter (is_called p) told) }
{
    let marks = marks_of(alloc, tables, names.count() as usize)?;
    let kept = kept_by(alloc, names, &marks, told)?;
    Ok(kept)
}
