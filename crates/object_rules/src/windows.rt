//! Relocations of one section, cut at places.
ghost use Rattle.std.specs.Prelude.{◌≡◌, ◌≤◌, length};
ghost use Rattle.std.specs.List.{prefix_len};
ghost use Rattle.object_parts.specs.Code.{begins_before, before, behind};
ghost use Rattle.object_rules.specs.Windows.{relocs_for, start_of};

use object_parts::{Reloc, RelocSection, SectionSpan, has_id};

/// The relocations for the section with this id, 10 for code and 11 for data: those of the first
/// section `reloc.` that is for it.
pub fn relocs_for<'a>(id: u8, all: &[SectionSpan], relocs: &'a [RelocSection]) -> &'a [Reloc]
    ensures { result.now ≡ relocs_for id all.now relocs.now }
{
    for section in relocs {
        if has_id(id, all, section.target) {
            return section.entries.as_slice();
        }
    }
    &[]
}

/// Where the payload of the section with this id begins in the object. It is 0 where there is none.
pub fn start_of(id: u8, all: &[SectionSpan]) -> u64
    ensures { result ≡ start_of id all.now }
{
    for section in all {
        if section.id == id {
            return section.payload.start;
        }
    }
    0
}

/// How many relocations in front begin before a place of the payload.
fn count_before(place: u128, relocs: &[Reloc]) -> usize
    ensures value { result ≡ prefix_len (begins_before place) relocs.now }
    ensures within { result ≤ length relocs.now }
{
    relocs
        .iter()
        .take_while(|reloc| u128::from(reloc.offset) < place)
        .count()
}

/// The relocations that begin before a place of the payload, and those from there on.
pub fn split_before(place: u128, relocs: &[Reloc]) -> (&[Reloc], &[Reloc])
    ensures before { result.0.now ≡ before place relocs.now }
    ensures behind { result.1.now ≡ behind place relocs.now }
{
    let count = count_before(place, relocs);
    (&relocs[..count], &relocs[count..])
}
