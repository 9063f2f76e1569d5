//! Names of functions in two pieces, and those that functions have by themselves.
ghost use Rattle.std.specs.Prelude.{◌≡◌, ◌==◌, [], length, map, slice_index_or, IfOk};
ghost use Rattle.function_names.specs.Labels.{begins_variant, behind_marks, stub_label};
ghost use Rattle.link_program.specs.made_symbols.Made.{made_at};
ghost use Rattle.names_out.specs.Told.{label_seen, key_label_told};

use link_program::{FunctionKey, Mode, Names};
use made_symbols::{count, name};
use std::alloc::Global;
use wl_base::OutOfMemory;

/// What tells the name of a variant, and stands in it three times before the name of the function.
const MARK: u8 = 0xFF;

/// What stands before the name of a function that is called by another type than its definition has.
const MISMATCH: &[u8] = b"signature_mismatch:";

/// What stands before the name of a function that is undefined and weak.
const WEAK: &[u8] = b"undefined_weak:";

/// A name, lent: a prefix and the rest.
#[derive(Clone, Copy)]
pub(crate) struct Label<'a> {
    pub prefix: &'a [u8],
    pub name: &'a [u8],
}

/// A name without a prefix.
pub(crate) fn plain<'a>(name: &'a [u8]) -> Label<'a>
    ensures { label_seen result ≡ name.now }
{
    Label { prefix: &[], name }
}

pub(crate) fn is_empty(label: Label<'_>) -> bool
    ensures { result ≡ (length (label_seen label.entry) == 0) }
{
    label.prefix.is_empty() && label.name.is_empty()
}

/// Whether the name is that of a variant.
fn begins_variant(name: &[u8]) -> bool
    ensures { result ≡ begins_variant name.now }
{
    match name {
        [first, ..] => *first == MARK,
        [] => false,
    }
}

/// What stands behind the first mark.
#[tactic(auto, using(crate::proofs::Marks::marked, crate::proofs::Marks::unmarked, crate::proofs::Marks::none_marked))]
fn behind_mark(name: &[u8]) -> &[u8]
    ensures { result.now ≡ behind_marks 1 name.now }
{
    for at in 0..name.len() {
        if name[at] == MARK {
            return &name[at + 1..];
        }
    }
    &[]
}

/// The name of the stub that stands for the function of a name.
#[tactic(auto, unfolding(function_names::specs::Labels::stub_label), using(crate::proofs::Marks::three_marks))]
fn stub_label(name: &[u8]) -> Label<'_>
    ensures { label_seen result ≡ stub_label name.now }
{
    if begins_variant(name) {
        return Label {
            prefix: MISMATCH,
            name: behind_mark(behind_mark(behind_mark(name))),
        };
    }
    Label { prefix: WEAK, name }
}

/// The name of a number, or the empty one.
fn name_at(names: &Names, number: u32) -> &[u8]
    ensures { result.now ≡ slice_index_or names.now.names number [] }
{
    if number < names.count() {
        names.name(number)
    } else {
        &[]
    }
}

/// The name of the linker's function of a number, or the empty one.
fn made_name(mode: Mode, number: u32) -> &'static [u8]
    ensures { result.now ≡ (made_at mode number).name }
{
    if number < count(mode) {
        name(mode, number)
    } else {
        &[]
    }
}

/// The name that a function has by itself.
fn key_label(mode: Mode, names: &Names, key: FunctionKey) -> Label<'_>
    ensures { label_seen result ≡ key_label_told mode names.now.names key }
{
    match key {
        FunctionKey::Import(_) => plain(&[]),
        FunctionKey::Own { input, index } => {
            if input == 0 {
                plain(made_name(mode, index))
            } else {
                plain(&[])
            }
        }
        FunctionKey::Stub(number) => stub_label(name_at(names, number)),
    }
}

/// The names that these functions have by themselves.
pub(crate) fn key_labels<'a>(
    alloc: Global,
    mode: Mode,
    names: &'a Names,
    keys: &[FunctionKey],
) -> Result<Vec<Label<'a>>, OutOfMemory>
    ensures { IfOk result (λ table. map label_seen table.items ≡ map (key_label_told mode names.now.names) keys.now) }
{
    let mut table = Vec::with_capacity(alloc, keys.len())?;
    for key in keys {
        table.push(key_label(mode, names, *key))?;
    }
    Ok(table)
}
