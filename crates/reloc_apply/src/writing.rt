//! A window is written.
ghost use Rattle.std.specs.Prelude.{◌≡◌, ◌+◌, ◌≤◌, length};
ghost use Rattle.reloc_apply.specs.Windows.{over, spelled, signed32};
ghost use Rattle.reloc_apply.specs.Apart.{size_of};

use crate::Form;
use leb_codec::{put_s32_5, put_u32_5};

/// Spells a value in the window at this place.
pub fn fill_window(form: Form, value: u32, at: usize, out: &mut [u8])
    requires { at + size_of form ≤ length out.old }
    ensures bytes { out.new ≡ over at (spelled form value) out.old }
    ensures len { length out.new ≡ length out.old }
{
    match form {
        Form::Unsigned5 => out[at..at + 5].copy_from_slice(put_u32_5(value).as_slice()),
        Form::Signed5 => out[at..at + 5].copy_from_slice(put_s32_5(signed(value)).as_slice()),
        Form::Word4 => out[at..at + 4].copy_from_slice(value.to_le_bytes().as_slice()),
    }
}

// The bits as a signed number.
fn signed(bits: u32) -> i32
    ensures { result ≡ signed32 bits }
{
    bits.cast_signed()
}
