//! Scanning a body: its operands from its bytes, in one pass that keeps no instruction.
ghost use Rattle.std.specs.Prelude.{◌≡◌, ◌↔◌, IsTrue, ◌+◌, ◌<◌, ◌≤◌, ◌^◌, ◌∷◌, [], false, length, IfOk};
ghost use Rattle.wasm_instr.specs.wasm_grammar.Fault.{Gives};
ghost use Rattle.wasm_instr.specs.declared.outline.Outline.TheVariants as outlines;
ghost use Rattle.body_windows.specs.Operands.{StandIn};
ghost use Rattle.body_windows.specs.Scanning.{scan_of};
ghost use Rattle.body_windows.specs.Merging.{walked};

use crate::fault::Mismatch;
use crate::merging::Merger;
use crate::operands::Operands;
use crate::overlap::least_overlap;
use crate::quick::pass_quick;
use reloc_section::Reloc;
use std::alloc::Global;
use wasm_grammar::{ReadFault, none_at, place};
use wasm_instr::{Outline, outline_step, skim_at, skip_locals_at};
use wl_base::Seq;

/// Whether the outline is of an instruction that neither opens, turns nor closes a block, and has no
/// immediate that can be a reference. Most are.
#[inline(always)]
fn is_other(outline: Outline) -> bool
    ensures { IsTrue result ↔ (outline ≡ outlines.Other) }
{
    matches!(outline, Outline::Other)
}

/// Takes all immediates of the instructions that these bytes are. The bytes reach to the body's
/// end. What is in the list of open blocks is dropped.
fn scan_code(
    merger: &mut Merger,
    opens: &mut Seq<bool>,
    end: usize,
    bytes: &[u8],
) -> Result<(), ReadFault>
    requires within { length bytes.now ≤ end }
    requires room { merger.old.base + end < 2 ^ 32 }
    ensures { Gives (λ _. merger.new) result (walked merger.old end (false ∷ []) bytes.now) }
{
    opens.truncate(0);
    opens.push(false)?;
    let mut rest = bytes;
    while opens.len() > 0 {
        let here = pass_quick(merger, opens, end, rest)?;
        let (outline, last, after) = skim_at(end, here)?;
        if is_other(outline) {
            rest = after;
            continue;
        }
        let at = place(end, here);
        outline_step(opens, at, outline)?;
        let mid = place(end, last) as u32;
        let until = place(end, after) as u32;
        merger.offer_outline(outline, at as u32, mid, until)?;
        rest = after;
    }
    none_at(end, rest)?;
    Ok(())
}

/// The operands of the body that these bytes are, as [`crate::windows`] gives them, or how body and
/// relocations disagree. A fault of the body comes before that.
///
/// The body begins at the place `base` of the code section's payload. The list of open blocks is
/// lent, so that many bodies can be scanned with the same one; what is in it doesn't matter.
pub fn scan(
    alloc: Global,
    opens: &mut Seq<bool>,
    bytes: &[u8],
    base: u32,
    relocs: &[Reloc],
) -> Result<Result<Operands, Mismatch>, ReadFault>
    requires { base + length bytes.now < 2 ^ 32 }
    ensures exact { Gives (λ x. x) result (scan_of base relocs.now bytes.now) }
    // The windows lie in the body, one behind another.
    ensures within { IfOk result (λ answer. IfOk answer (λ operands. StandIn 0 (length bytes.now) operands)) }
{
    let code = skip_locals_at(bytes.len(), bytes)?;
    let mut merger = Merger::new(alloc, base, relocs);
    merger.reserve()?;
    scan_code(&mut merger, opens, bytes.len(), code)?;
    Ok(merger.finish(least_overlap(relocs)))
}
