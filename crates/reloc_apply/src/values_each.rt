//! The value of each window.
ghost use Rattle.std.specs.Prelude.{◌≡◌, ◌-◌, ◌^◌, ◌≤ℤ◌, ◌<ℤ◌, ◌+ℤ◌, pos, negsuc, [], ◌∷◌, All, IfOk, OnErr};
ghost use Rattle.wl_base.specs.Answers.{Answers};
ghost use Rattle.reloc_apply.specs.Windows.{IsSum, patches_of, patches_from, patch_at, patched_on, held_at, held_on, Puts, bits32, fits_form};

use crate::{Form, Patch, Patches, Window};
use std::alloc::Global;
use wl_base::{LayoutError, OutOfMemory, Seq, What};

/// What is written into each window, where each value is in the range of its form.
///
/// Else the value of the first window that is out of range passes the limit. The windows stand in
/// the order of the output, so that it is the one of the least place.
#[tactic(auto, using(crate::proofs::Sums::patches_err, crate::proofs::Sums::patches_ok))]
pub fn values(alloc: Global, windows: &[Window]) -> Result<Patches, LayoutError>
    requires { All IsSum windows.now }
    ensures { Answers result (patches_of windows.now) }
{
    Ok(Patches {
        patches: patches(alloc, windows)?,
    })
}

fn patches(alloc: Global, windows: &[Window]) -> Result<Seq<Patch>, LayoutError>
    requires { All IsSum windows.now }
    ensures { Answers result (patches_from windows.now) }
{
    let mut patches = room_for(alloc, windows.len())?;
    for window in windows {
        patches.push(patch(window)?)?;
    }
    Ok(patches)
}

// No patch, and room for so many.
fn room_for(alloc: Global, count: usize) -> Result<Seq<Patch>, OutOfMemory>
    ensures { IfOk result (λ patches. patches ≡ []) }
{
    Ok(Seq::from_vec(Vec::with_capacity(alloc, count)?))
}

impl Patches {
    /// No patch, and room for so many.
    pub fn with_capacity(alloc: Global, count: usize) -> Result<Patches, OutOfMemory>
        ensures { IfOk result (λ made. made.patches ≡ []) }
    {
        Ok(Patches {
            patches: room_for(alloc, count)?,
        })
    }

    /// Puts what is written into a window behind the others. Where it is refused they stay as they were.
    ///
    /// # Errors
    ///
    /// `Overflow` with `Reference` exactly where the value is out of the range of its form. `OutOfMemory`.
    pub fn push(&mut self, window: &Window) -> Result<(), LayoutError>
        requires { IsSum window.now }
        ensures put { Puts result self.new.patches (patched_on self.old.patches (window.now ∷ [])) }
        ensures refused { OnErr result (self.new ≡ self.old) }
    {
        let patch = patch(window)?;
        self.patches.push(patch)?;
        Ok(())
    }

    /// Puts a 0 behind the others, for a window whose value is stored when the output is loaded (DynamicLinking.md). Where it is refused they
    /// stay as they were.
    ///
    /// # Errors
    ///
    /// As of `push`: `Overflow` with `Reference` exactly where the value is out of the range of its form. `OutOfMemory`.
    pub fn push_held(&mut self, window: &Window) -> Result<(), LayoutError>
        requires { IsSum window.now }
        ensures put { Puts result self.new.patches (held_on self.old.patches window.now) }
        ensures refused { OnErr result (self.new ≡ self.old) }
    {
        let patch = held(window)?;
        self.patches.push(patch)?;
        Ok(())
    }
}

// A 0 in the window, where its value is in range.
fn held(window: &Window) -> Result<Patch, LayoutError>
    requires { IsSum window.now }
    ensures { Answers result (held_at window.now) }
{
    let value = sum(window.target, window.addend);
    if !fits(window.form, value) {
        return Err(LayoutError::Overflow {
            what: What::Reference,
            needed: value,
        });
    }
    Ok(Patch {
        place: window.place,
        form: window.form,
        value: 0,
    })
}

fn patch(window: &Window) -> Result<Patch, LayoutError>
    requires { IsSum window.now }
    ensures { Answers result (patch_at window.now) }
{
    let value = sum(window.target, window.addend);
    if !fits(window.form, value) {
        return Err(LayoutError::Overflow {
            what: What::Reference,
            needed: value,
        });
    }
    Ok(Patch {
        place: window.place,
        form: window.form,
        value: bits(value),
    })
}

fn sum(target: i64, addend: i64) -> i64
    requires { (negsuc (2 ^ 63 - 1) ≤ℤ (target +ℤ addend)) × ((target +ℤ addend) ≤ℤ pos (2 ^ 63 - 1)) }
    ensures { result ≡ target +ℤ addend }
{
    target + addend
}

// Whether the value is in the range of the form.
fn fits(form: Form, value: i64) -> bool
    ensures { result ≡ fits_form form value }
{
    match form {
        Form::Unsigned5 => 0 <= value && value < 0x1_0000_0000,
        Form::Signed5 | Form::Word4 => -0x8000_0000 <= value && value < 0x1_0000_0000,
    }
}

// The value modulo 2^32.
fn bits(value: i64) -> u32
    requires { (negsuc (2 ^ 31 - 1) ≤ℤ value) × (value <ℤ pos (2 ^ 32)) }
    ensures { result ≡ bits32 value }
{
    if value < 0 {
        (value + 0x1_0000_0000) as u32
    } else {
        value as u32
    }
}
