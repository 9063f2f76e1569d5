//! Windows that lie apart, as filling asks of them.
ghost use Rattle.std.specs.Prelude.{◌≡◌, ◌≤◌, IsTrue};
ghost use Rattle.reloc_apply.specs.Apart.{AreApart, size_of};

use reloc_apply::{Form, Patch};

fn size(form: Form) -> u64
    ensures { (4 ≤ result) × (result ≤ 5) × (result ≡ size_of form) }
{
    match form {
        Form::Unsigned5 | Form::Signed5 => 5,
        Form::Word4 => 4,
    }
}

/// Whether the windows rise, don't overlap and end within so many bytes.
pub fn are_apart(patches: &[Patch], end: usize) -> bool
    ensures { IsTrue result → AreApart 0 end patches.now }
{
    let mut at = 0;
    for patch in patches {
        if patch.place < at || patch.place >= 1 << 32 {
            return false;
        }
        at = patch.place + size(patch.form);
    }
    at <= end as u64
}
