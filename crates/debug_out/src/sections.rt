//! The custom sections of an object.
ghost use Rattle.std.specs.Prelude.{◌≡◌, ℕ, map, option_map, length, IfOk};
ghost use Rattle.debug_out.specs.Refs.{custom_seen};
ghost use Rattle.debug_out.specs.Targets.{targets};
ghost use Rattle.debug_rules.specs.Sections.{payload_of, custom_at, customs_from, customs, is_debug, is_relocs_for};
ghost use Rattle.wasm_sections.specs.Reading.{frame_at};

use crate::refs::CustomRef;
use std::alloc::Global;
use wasm_grammar::{bytes_at, u32_at};
use wasm_sections::{FrameFault, SectionSpan, frame};
use wl_base::{OutOfMemory, Seq, Span};

/// The bytes of a span.
pub fn payload_of(bytes: &[u8], s: Span) -> &[u8]
    ensures { result.now ≡ payload_of bytes.now s }
{
    let start = bytes.len().min(s.start as usize);
    let rest = &bytes[start..];
    &rest[..rest.len().min(s.len as usize)]
}

/// The custom section that a section is, where it is one.
fn custom_at<'a>(bytes: &'a [u8], at: u32, s: &SectionSpan) -> Option<CustomRef<'a>>
    ensures { option_map custom_seen result ≡ custom_at bytes.now at s.now }
{
    if s.id != 0 {
        return None;
    }
    let payload = payload_of(bytes, s.payload);
    match bytes_at(s.payload.len as usize, payload) {
        Ok((name, content)) => Some(CustomRef { at, name, content }),
        Err(_) => None,
    }
}

fn customs_from<'a>(
    alloc: Global,
    bytes: &'a [u8],
    sections: &[SectionSpan],
) -> Result<Seq<CustomRef<'a>>, OutOfMemory>
    ensures { IfOk result (λ cs. map custom_seen cs ≡ customs_from bytes.now 0 sections.now) }
{
    let mut all = Seq::new(alloc);
    for (at, s) in sections.iter().enumerate() {
        let Ok(at) = u32::try_from(at) else {
            return Err(OutOfMemory);
        };
        if let Some(custom) = custom_at(bytes, at, s) {
            all.push(custom)?;
        }
    }
    Ok(all)
}

/// The custom sections of an object, in the order of the file.
#[tactic(auto, unfolding(debug_rules::specs::Sections::customs))]
pub fn customs<'a>(alloc: Global, bytes: &'a [u8]) -> Result<Seq<CustomRef<'a>>, OutOfMemory>
    ensures { IfOk result (λ cs. map custom_seen cs ≡ customs bytes.now) }
{
    match frame(alloc, bytes) {
        Ok(sections) => customs_from(alloc, bytes, sections.as_slice()),
        Err(FrameFault::OutOfMemory) => Err(OutOfMemory),
        Err(_) => Ok(Seq::new(alloc)),
    }
}

/// Whether the name begins with `.debug_`.
pub fn is_debug(c: &CustomRef<'_>) -> bool
    ensures { result ≡ is_debug (custom_seen c.now) }
{
    let name = c.name;
    &name[..name.len().min(7)] == b".debug_".as_slice()
}

/// The place of the section for which a section holds relocations.
pub fn target_of(c: &CustomRef<'_>) -> Option<u32>
    ensures { (at : ℕ) → targets at result ≡ is_relocs_for at (custom_seen c.now) }
{
    let name = c.name;
    if &name[..name.len().min(6)] != b"reloc.".as_slice() {
        return None;
    }
    match u32_at(0, c.content) {
        Ok((target, _)) => Some(target),
        Err(_) => None,
    }
}
