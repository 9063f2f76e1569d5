//! Immediates and relocations, merged by their places.
ghost use Rattle.std.specs.Prelude.{◌≡◌, ◌+◌, ◌<◌, ◌^◌, [], None, IsTrue, OnOk};
ghost use Rattle.body_windows.specs.Merging.{State, left_bare, offered, offered_all, outlined_immediates, Fit, finished};
ghost use Rattle.body_windows.specs.Quick.{numbered, IsClear, Takes};

use crate::fault::Mismatch;
use crate::immediate::{Immediate, ImmediateKind};
use crate::operand::Operand;
use crate::operands::Operands;
use reloc_section::{Reloc, kinds};
use std::alloc::Global;
use std::marker::Model;
use wasm_instr::Outline;
use wl_base::OutOfMemory;

/// How many of these are for a type.
fn types_in(relocs: &[Reloc]) -> usize {
    relocs
        .iter()
        .filter(|reloc| reloc.kind == kinds::TYPE_INDEX_LEB)
        .count()
}

/// What is known behind some of a body's immediates.
#[derive(Drop)]
pub struct Merger<'a> {
    /// The body's place, from the start of the code section's payload.
    base: u32,
    /// The relocations that stand behind these immediates.
    left: &'a [Reloc],
    /// The operands so far.
    operands: Operands,
    /// The offset of the first relocation whose window is no immediate of its kind. Where there is
    /// one, nothing behind it is looked at.
    off: Option<u32>,
    /// The place of the first immediate that has no relocation and has to have one.
    bare: Option<u32>,
}

impl<'a> Model for Merger<'a> {
    ghost use Rattle.body_windows.specs.Merging.{State};

    ghost Value = { State };

    ghost view = { λ m. record { base = m.base; left = m.left.now; operands = m.operands; off = m.off; bare = m.bare } };
}

impl<'a> Merger<'a> {
    /// What is known before the first immediate of a body that begins at the place `base`. The
    /// offsets of the relocations are to rise.
    pub fn new(alloc: Global, base: u32, relocs: &'a [Reloc]) -> Self
        ensures { result ≡ record { base = base; left = relocs.now; operands = []; off = None; bare = None } }
    {
        Merger {
            base,
            left: relocs,
            operands: Operands::new(alloc),
            off: None,
            bare: None,
        }
    }

    /// Takes the next immediate as one without a relocation.
    #[inline(always)]
    fn leave(&mut self, immediate: Immediate) -> Result<(), OutOfMemory>
        requires { self.old.base + immediate.place < 2 ^ 32 }
        ensures { OnOk result (self.new ≡ left_bare self.old immediate) }
    {
        if self.bare.is_none() && immediate.kind.needs_window() {
            self.bare = Some(self.base + immediate.place);
        }
        self.operands.push(immediate.kind.plain_operand())
    }

    /// Takes the next immediate. Where memory is refused nothing is known of what stands behind.
    #[inline(always)]
    pub fn offer(&mut self, immediate: Immediate) -> Result<(), OutOfMemory>
        requires { self.old.base + immediate.place < 2 ^ 32 }
        ensures { OnOk result (self.new ≡ offered self.old immediate) }
    {
        if self.off.is_some() {
            return Ok(());
        }
        match self.left {
            [reloc, after @ ..] if reloc.offset <= self.base + immediate.place => {
                if immediate.fills(self.base, reloc) {
                    self.left = after;
                    self.operands.push(immediate.operand_of(reloc))
                } else {
                    self.off = Some(reloc.offset);
                    Ok(())
                }
            }
            _ => self.leave(immediate),
        }
    }

    /// Whether no window is off.
    #[inline(always)]
    pub fn is_on(&self) -> bool
        ensures { IsTrue result → self.now.off ≡ None }
    {
        self.off.is_none()
    }

    /// How many bytes there are from the place `from` up to the next window.
    #[inline(always)]
    pub fn clear(&self, from: usize) -> usize
        requires { self.now.base + from < 2 ^ 32 }
        ensures { IsClear self.now.left (self.now.base + from) result }
    {
        match self.left {
            [reloc, ..] => (reloc.offset as usize).saturating_sub(self.base as usize + from),
            _ => usize::MAX,
        }
    }

    /// Takes so many numbers, and then the next immediate, where it is the window of the next relocation
    /// and there is room for it: whether that is so. Where it isn't, nothing changes.
    #[inline(always)]
    pub fn take(&mut self, numbers: usize, immediate: Immediate) -> bool
        requires on { self.old.off ≡ None }
        requires room { self.old.base + immediate.place < 2 ^ 32 }
        requires few { numbers < 2 ^ 32 }
        ensures { Takes result self.old numbers immediate self.new }
    {
        match self.left {
            [reloc, after @ ..] if immediate.fills(self.base, reloc) => {
                if !self
                    .operands
                    .push_behind(numbers, immediate.operand_of(reloc))
                {
                    return false;
                }
                self.left = after;
                true
            }
            _ => false,
        }
    }

    /// Room for the operands of the relocations. Behind the type of an indirect call stands its table, which has none.
    pub fn reserve(&mut self) -> Result<(), OutOfMemory>
        ensures { OnOk result (self.new ≡ self.old) }
    {
        self.operands
            .reserve(self.left.len().saturating_add(types_in(self.left)))
    }

    /// Takes so many numbers.
    #[inline(always)]
    pub fn push_numbers(&mut self, numbers: usize) -> Result<(), OutOfMemory>
        requires { numbers < 2 ^ 32 }
        ensures { OnOk result (self.new ≡ numbered self.old numbers) }
    {
        self.operands.push_numbers(numbers)
    }

    /// Takes the immediates of an instruction of this outline. Its opcode stands at the place `at`,
    /// and its last immediate at `mid`.
    #[inline(always)]
    pub fn offer_outline(
        &mut self,
        outline: Outline,
        at: u32,
        mid: u32,
        end: u32,
    ) -> Result<(), OutOfMemory>
        requires { Fit self.old.base (outlined_immediates outline at mid end) }
        ensures { OnOk result (self.new ≡ offered_all self.old (outlined_immediates outline at mid end)) }
    {
        match outline {
            Outline::Block { index: true, .. } => {
                self.offer(Immediate::between(ImmediateKind::TypeIndex, mid, end))
            }
            Outline::Call => self.offer(Immediate::between(ImmediateKind::FunctionIndex, mid, end)),
            Outline::CallIndirect { table } => {
                self.offer(Immediate::between(ImmediateKind::TypeIndex, at + 1, mid))?;
                self.offer(Immediate::between(ImmediateKind::TableIndex(table), mid, end))
            }
            Outline::Global => self.offer(Immediate::between(ImmediateKind::GlobalIndex, mid, end)),
            Outline::Access => self.offer(Immediate::between(
                ImmediateKind::MemoryOffset,
                mid,
                end,
            )),
            Outline::I32Const => self.offer(Immediate::between(ImmediateKind::Constant, mid, end)),
            _ => Ok(()),
        }
    }

    /// The operands, where no immediate is left, or the first fault. The argument is the least
    /// overlap of the relocations.
    pub fn finish(self, overlap: Option<u32>) -> Result<Operands, Mismatch>
        ensures { result ≡ finished self.entry overlap }
    {
        if let Some(place) = overlap {
            return Err(Mismatch::Overlap(place));
        }
        if let Some(place) = self.off {
            return Err(Mismatch::OffImmediate(place));
        }
        if let [reloc, ..] = self.left {
            return Err(Mismatch::OffImmediate(reloc.offset));
        }
        match self.bare {
            Some(place) => Err(Mismatch::BareIndex(place)),
            None => Ok(self.operands.shrunk()),
        }
    }
}
