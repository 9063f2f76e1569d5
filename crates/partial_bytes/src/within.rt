//! Whether the windows of relocations lie in their parts.
ghost use Rattle.std.specs.Prelude.{◌≡◌, true};
ghost use Rattle.std.specs.List.{list_all};
ghost use Rattle.reloc_apply.specs.Apart.{size_of};
ghost use Rattle.partial_bytes.specs.Relocs.{reloc_by};
ghost use Rattle.partial_bytes.specs.Told.{TreeFits};
ghost use Rattle.partial_bytes.specs.Written.{window_fits, part_fits};

use crate::entries::reloc_of;
use crate::part::form_of;
use crate::tree::{Numbers, Part, Tree};
use link_program::Named;
use reloc_apply::Form;
use reloc_section::Reloc;

fn size_of(form: Form) -> u64
    ensures { result ≡ size_of form }
{
    match form {
        Form::Unsigned5 | Form::Signed5 => 5,
        Form::Word4 => 4,
    }
}

fn window_fits(len: u64, x: &Reloc) -> bool
    ensures { result ≡ window_fits len x.now }
{
    u64::from(x.offset) + size_of(form_of(x.kind)) <= len
}

fn windows_fit(len: u64, numbers: &Numbers<'_>, named: &[Named]) -> bool
    ensures { result ≡ list_all (λ x. window_fits len (reloc_by numbers.now x)) named.now }
{
    named
        .iter()
        .all(|x| window_fits(len, &reloc_of(numbers, *x)))
}

fn part_fits(part: &Part<'_>) -> bool
    ensures { result ≡ part_fits part.now }
{
    windows_fit(part.bytes.len() as u64, part.numbers, part.named)
}

fn parts_fit(parts: &[Part<'_>]) -> bool
    ensures { result ≡ list_all part_fits parts.now }
{
    parts.iter().all(|part| part_fits(part))
}

/// Whether the windows of all relocations lie in their parts: true exactly where they do.
#[tactic(auto, using(crate::proofs::Fitting::tree_known, crate::proofs::Fitting::parts_judged))]
pub fn lie_in(tree: &Tree<'_>) -> bool
    ensures lie { result ≡ true → TreeFits tree.now }
    ensures only { TreeFits tree.now → result ≡ true }
{
    parts_fit(tree.bodies) && parts_fit(tree.segments)
}
