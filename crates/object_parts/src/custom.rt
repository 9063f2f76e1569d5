//! Custom sections.
ghost use Rattle.std.specs.Prelude.{◌≡◌, OnOk};
ghost use Rattle.wasm_instr.specs.wasm_grammar.Fault.{Gives};
ghost use Rattle.object_parts.specs.Adding.{has_id, with_linking, with_relocs, relocs_behind, relocs_for, add_linking, add_relocs, add_named, add_custom};

use crate::kind::CustomKind;
use crate::parts::Parts;
use body_windows::{RelocSection, relocs_at};
use linking_section::{Linking, linking_at};
use std::alloc::Global;
use wasm_grammar::{ReadFault, Stop, u32_at};
use wasm_module::{SectionSpan, lent_name_at};
use wl_base::{Item, OutOfMemory, Seq};

/// Whether the section at this place among all sections is there and has this id.
pub fn has_id(id: u8, all: &[SectionSpan], target: u32) -> bool
    ensures { result ≡ has_id id all.now target }
{
    match all.get(target as usize) {
        Some(section) => section.id == id,
        None => false,
    }
}

fn relocs_behind(
    alloc: Global,
    unread: bool,
    target: u32,
    end: usize,
    bytes: &[u8],
) -> Result<RelocSection, ReadFault>
    ensures { Gives (λ x. x) result (relocs_behind unread target end bytes.now) }
{
    if unread {
        Ok(RelocSection {
            target,
            entries: Seq::new(alloc),
        })
    } else {
        relocs_at(alloc, end, bytes)
    }
}

/// The relocations of a section. Those of a custom section aren't looked at.
#[tactic(auto, unfolding(crate::specs::Adding::relocs_for))]
fn relocs_for(
    alloc: Global,
    all: &[SectionSpan],
    end: usize,
    bytes: &[u8],
) -> Result<RelocSection, ReadFault>
    ensures { Gives (λ x. x) result (relocs_for all.now end bytes.now) }
{
    let (target, _) = u32_at(end, bytes)?;
    relocs_behind(alloc, has_id(0, all, target), target, end, bytes)
}

fn with_linking(parts: &mut Parts, linking: Linking)
    ensures { parts.new ≡ with_linking parts.old parts.old.linking linking }
{
    if parts.linking.is_none() {
        parts.linking = Some(linking);
    } else {
        parts.in_order = false;
    }
}

/// A section of relocations more.
pub fn with_relocs(parts: &mut Parts, relocs: RelocSection) -> Result<(), OutOfMemory>
    ensures { OnOk result (parts.new ≡ with_relocs parts.old relocs) }
{
    parts.relocs.push(relocs)?;
    parts.in_order = parts.in_order && parts.linking.is_some();
    Ok(())
}

#[tactic(auto, unfolding(crate::specs::Adding::add_linking))]
fn add_linking(alloc: Global, parts: &mut Parts, end: usize, bytes: &[u8]) -> Result<(), ReadFault>
    ensures { Gives (λ _. parts.new) result (add_linking parts.old end bytes.now) }
{
    let linking = linking_at(alloc, end, bytes)?;
    with_linking(parts, linking);
    Ok(())
}

#[tactic(auto, unfolding(crate::specs::Adding::add_relocs))]
fn add_relocs(
    alloc: Global,
    all: &[SectionSpan],
    parts: &mut Parts,
    end: usize,
    bytes: &[u8],
) -> Result<(), ReadFault>
    ensures { Gives (λ _. parts.new) result (add_relocs all.now parts.old end bytes.now) }
{
    let relocs = relocs_for(alloc, all, end, bytes)?;
    with_relocs(parts, relocs)?;
    Ok(())
}

fn add_named(
    alloc: Global,
    all: &[SectionSpan],
    kind: CustomKind,
    parts: &mut Parts,
    end: usize,
    bytes: &[u8],
) -> Result<(), ReadFault>
    ensures { Gives (λ _. parts.new) result (add_named all.now kind parts.old end bytes.now) }
{
    match kind {
        CustomKind::Linking => add_linking(alloc, parts, end, bytes),
        CustomKind::Relocs => add_relocs(alloc, all, parts, end, bytes),
        CustomKind::Shared => Err(ReadFault::Stopped(Stop::Foreign(Item::SharedModule))),
        CustomKind::Other => Ok(()),
    }
}

/// What a custom section adds (Core 5.5.3, Linking.md).
#[tactic(auto, unfolding(crate::specs::Adding::add_custom))]
pub fn add_custom(
    alloc: Global,
    all: &[SectionSpan],
    parts: &mut Parts,
    end: usize,
    payload: &[u8],
) -> Result<(), ReadFault>
    ensures { Gives (λ _. parts.new) result (add_custom all.now parts.old end payload.now) }
{
    let (name, bytes) = lent_name_at(end, payload)?;
    let kind = CustomKind::of(name);
    add_named(alloc, all, kind, parts, end, bytes)
}
