//! The operands of a body that was read.
ghost use Rattle.std.specs.Prelude.{◌≡◌, ◌+◌, ◌<◌, ◌^◌, OnOk};
ghost use Rattle.wasm_instr.specs.declared.body.Body.{Body};
ghost use Rattle.body_windows.specs.Fault.{Tells};
ghost use Rattle.body_windows.specs.Immediates.{immediates, AreInOrder, end_of};
ghost use Rattle.body_windows.specs.Windows.{windows_of};
ghost use Rattle.body_windows.specs.Merging.{State, offered_all, Fit};

use crate::fault::WindowFault;
use crate::merging::Merger;
use crate::operands::Operands;
use crate::overlap::least_overlap;
use reloc_section::Reloc;
use std::alloc::Global;
use wasm_instr::{Body, Placed};
use wl_base::OutOfMemory;

/// Takes all immediates of these instructions.
fn offer_code(merger: &mut Merger, code: &[Placed]) -> Result<(), OutOfMemory>
    requires { Fit merger.old.base (immediates code.now) }
    ensures { OnOk result (merger.new ≡ offered_all merger.old (immediates code.now)) }
{
    for placed in code {
        merger.offer_outline(placed.instr.outline(), placed.at, placed.mid, placed.end)?;
    }
    Ok(())
}

/// The operands of a body, one for each immediate that can be a reference, in order, under the
/// relocations of the code section; or the first fault. The body begins at the place `base` of the
/// code section's payload.
pub fn windows(
    alloc: Global,
    body: &Body,
    base: u32,
    relocs: &[Reloc],
) -> Result<Operands, WindowFault>
    // The places rise, as those of every body that was read do (`bodies_are_in_order`).
    requires order { AreInOrder 0 (end_of 0 body.now.code) (immediates body.now.code) }
    requires room { base + end_of 0 body.now.code < 2 ^ 32 }
    ensures { Tells result (windows_of base relocs.now body.now) }
{
    let mut merger = Merger::new(alloc, base, relocs);
    offer_code(&mut merger, body.code.as_slice())?;
    Ok(merger.finish(least_overlap(relocs))?)
}
