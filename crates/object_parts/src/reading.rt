//! The sections of an object in file order.
ghost use Rattle.std.specs.Prelude.{◌≡◌, ◌+◌, ◌≤◌, ◌<◌, ◌^◌, ◌==◌, not, true, length, drop, All, IfOk};
ghost use Rattle.std.specs.List.{list_all};
ghost use Rattle.object_parts.specs.Adding.{no_parts};
ghost use Rattle.object_parts.specs.Sections.{AddInTurn};
ghost use Rattle.object_parts.specs.Spans.{LieIn};
ghost use Rattle.object_parts.specs.declared.parts.Parts.{Parts as Told};
ghost use Rattle.object_parts.specs.Reading.{code_relocs, parts_from, parts_of, fault_in, GivesParts, GivesMore};
ghost use Rattle.object_parts.specs.Early.{StandsIn};

use crate::adding::add_kind;
use crate::custom::with_relocs;
use crate::early::{Early, code_relocs};
use crate::kind::SectionKind;
use crate::parts::Parts;
use crate::placed::bytes_in;
use body_windows::Reloc;
use std::alloc::Global;
use wasm_grammar::{ReadFault, Stop};
use wasm_module::SectionSpan;
use wl_base::{OutOfMemory, Seq};

/// The first section that isn't spelled whole.
#[derive(Clone, Copy, Debug, PartialEq, Eq)]
pub struct SectionStop {
    /// Its place among all sections, from 0.
    pub section: u32,
    /// What stands in it. Places count from the object's first byte.
    pub stop: Stop,
}

/// Why sections have no parts.
#[derive(Clone, Copy, Debug, PartialEq, Eq)]
pub enum PartsFault {
    /// One of them isn't spelled whole.
    Stopped(SectionStop),
    /// Memory was refused. It says nothing of the bytes.
    OutOfMemory,
}

impl From<OutOfMemory> for PartsFault {
    ghost use Rattle.object_parts.specs.declared.reading.PartsFault.TheVariants as faults;

    ghost from_gives = { λ _ f. f ≡ faults.OutOfMemory };

    fn from(_e: OutOfMemory) -> PartsFault {
        PartsFault::OutOfMemory
    }
}

impl Parts {
    /// The parts of an object without a section.
    fn new(alloc: Global) -> Parts
        ensures { result ≡ no_parts }
    {
        Parts {
            types: Seq::new(alloc),
            imports: Seq::new(alloc),
            functions: Seq::new(alloc),
            globals: Seq::new(alloc),
            exports: Seq::new(alloc),
            elements: Seq::new(alloc),
            data_count: None,
            bodies: Seq::new(alloc),
            segments: Seq::new(alloc),
            linking: None,
            relocs: Seq::new(alloc),
            in_order: true,
        }
    }
}

/// The fault of the section at this place among all sections.
fn fault_in(section: u32, fault: ReadFault) -> PartsFault
    ensures { result ≡ fault_in section fault }
{
    match fault {
        ReadFault::Stopped(stop) => PartsFault::Stopped(SectionStop { section, stop }),
        ReadFault::OutOfMemory => PartsFault::OutOfMemory,
    }
}

/// Adds what each of these sections tells, one after another. The first of them stands at this
/// place among all sections.
fn add_sections(
    alloc: Global,
    all: &[SectionSpan],
    relocs: &[Reloc],
    from: u32,
    parts: &mut Parts,
    sections: &[SectionSpan],
    bytes: &[u8],
) -> Result<(), PartsFault>
    requires lie { All (λ s. s.payload.start + s.payload.len ≤ length bytes.now) sections.now }
    requires short { length bytes.now ≤ 2 ^ 30 }
    requires few { from + length sections.now < 2 ^ 32 }
    ensures { GivesMore result parts.new (parts_from all.now relocs.now bytes.now from parts.old sections.now) }
{
    for (at, section) in sections.iter().enumerate() {
        let kind = SectionKind::of(section.id);
        let payload = bytes_in(bytes, section.payload);
        let added = add_kind(alloc, all, relocs, kind, parts, section.payload, payload);
        if let Err(fault) = added {
            return Err(fault_in(from + at as u32, fault));
        }
    }
    Ok(())
}

/// Whether none of the sections has code.
fn have_no_code(sections: &[SectionSpan]) -> bool
    ensures { result ≡ list_all (λ s. not (s.id == 10)) sections.now }
{
    sections.iter().all(|section| section.id != 10)
}

/// Adds what all sections tell, where none behind the relocations of the code has code. These were
/// read before their turn, and are put where they stand.
fn add_around(
    alloc: Global,
    all: &[SectionSpan],
    early: Early,
    parts: &mut Parts,
    bytes: &[u8],
) -> Result<(), PartsFault>
    requires lie { All (λ s. s.payload.start + s.payload.len ≤ length bytes.now) all.now }
    requires short { length bytes.now ≤ 2 ^ 30 }
    requires few { length all.now < 2 ^ 32 }
    requires stands { StandsIn all.now bytes.now early }
    requires no_code { list_all (λ s. not (s.id == 10)) (drop (early.place + 1) all.now) ≡ true }
    ensures { GivesMore result parts.new (parts_from all.now early.relocs.entries bytes.now 0 parts.old all.now) }
{
    let Early { place, relocs } = early;
    let code = relocs.entries.as_slice();
    add_sections(alloc, all, code, 0, parts, &all[..place], bytes)?;
    with_relocs(parts, relocs)?;
    let behind = &all[place + 1..];
    add_sections(alloc, all, &[], place as u32 + 1, parts, behind, bytes)
}

/// Adds what all sections tell.
fn add_all(
    alloc: Global,
    all: &[SectionSpan],
    parts: &mut Parts,
    bytes: &[u8],
) -> Result<(), PartsFault>
    requires lie { All (λ s. s.payload.start + s.payload.len ≤ length bytes.now) all.now }
    requires short { length bytes.now ≤ 2 ^ 30 }
    requires few { length all.now < 2 ^ 32 }
    ensures { GivesMore result parts.new (parts_from all.now (code_relocs all.now bytes.now all.now) bytes.now 0 parts.old all.now) }
{
    match code_relocs(alloc, all, bytes)? {
        Some(early) if have_no_code(&all[early.place + 1..]) => {
            add_around(alloc, all, early, parts, bytes)
        }
        Some(early) => {
            let code = early.relocs.entries.as_slice();
            add_sections(alloc, all, code, 0, parts, all, bytes)
        }
        None => add_sections(alloc, all, &[], 0, parts, all, bytes),
    }
}

#[tactic(auto, unfolding(crate::specs::Reading::parts_of))]
fn parts_at(alloc: Global, all: &[SectionSpan], bytes: &[u8]) -> Result<Parts, PartsFault>
    requires lie { All (λ s. s.payload.start + s.payload.len ≤ length bytes.now) all.now }
    requires short { length bytes.now ≤ 2 ^ 30 }
    requires few { length all.now < 2 ^ 32 }
    ensures { GivesParts result (parts_of all.now bytes.now) }
{
    let mut parts = Parts::new(alloc);
    add_all(alloc, all, &mut parts, bytes)?;
    Ok(parts)
}

/// The parts of an object that is cut into these sections, or the first of them that isn't spelled
/// whole.
pub fn parts_of(alloc: Global, all: &[SectionSpan], bytes: &[u8]) -> Result<Parts, PartsFault>
    requires lie { All (λ s. s.payload.start + s.payload.len ≤ length bytes.now) all.now }
    requires short { length bytes.now ≤ 2 ^ 30 }
    requires few { length all.now < 2 ^ 32 }
    // What is read is what the sections spell.
    ensures found { IfOk result (λ parts. AddInTurn all.now (code_relocs all.now bytes.now all.now) bytes.now no_parts all.now parts) }
    // What the sections spell is read, unless memory runs out.
    ensures only { (parts : Told) → AddInTurn all.now (code_relocs all.now bytes.now all.now) bytes.now no_parts all.now parts
        → GivesParts result (Ok parts) }
    // Which section it is that isn't spelled whole: the first.
    ensures exact { GivesParts result (parts_of all.now bytes.now) }
    // Bodies, segments and values of globals lie in the bytes.
    ensures within { IfOk result (LieIn (length bytes.now)) }
{
    parts_at(alloc, all, bytes)
}
