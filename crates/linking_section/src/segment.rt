//! What is said of data segments.
ghost use Rattle.std.specs.Prelude.{◌≡◌};
ghost use Rattle.wasm_grammar.specs.wl_base.declared.item.Item.TheVariants as items;
ghost use Rattle.wasm_grammar.specs.Fault.{Reads, Gives};
ghost use Rattle.linking_section.specs.Flags.{is_foreign_segment};
ghost use Rattle.linking_section.specs.Linking.{SpellsSegmentInfo};
ghost use Rattle.linking_section.specs.Reading.{unless_at, segment_at};

use crate::flags::is_foreign_segment;
use std::alloc::Global;
use wasm_grammar::{Form, ReadFault, Stop, name_at, u32_at};
use wl_base::{Item, Name};

/// What is said of a data segment (Linking.md, 'Linking Metadata Section').
#[derive(Debug, PartialEq, Eq, Drop)]
pub struct SegmentInfo {
    /// Its name, as UTF-8.
    pub name: Name,
    /// Its alignment, as the exponent of a power of 2.
    pub align: u32,
    /// Its flags, as they stand.
    pub flags: u32,
}

/// The flags of a segment that is linked, and the bytes after them. Others are foreign.
#[tactic(auto, unfolding(crate::specs::Reading::unless_at))]
fn segment_flags_at(end: usize, bytes: &[u8]) -> Result<(u32, &[u8]), Stop>
    ensures { Reads (λ x. (x.0, x.1.now)) result (unless_at is_foreign_segment items.SegmentFlags end bytes.now) }
{
    let (flags, rest) = u32_at(end, bytes)?;
    if is_foreign_segment(flags) {
        return Err(Stop::Foreign(Item::SegmentFlags(flags)));
    }
    Ok((flags, rest))
}

/// What is said of a segment at the front, and the bytes after it.
#[tactic(auto, unfolding(crate::specs::Reading::segment_at))]
pub fn segment_at(
    alloc: Global,
    end: usize,
    bytes: &[u8],
) -> Result<(SegmentInfo, &[u8]), ReadFault>
    ensures { Gives (λ x. (x.0, x.1.now)) result (segment_at end bytes.now) }
{
    let (name, rest) = name_at(alloc, end, bytes)?;
    let (align, rest) = u32_at(end, rest)?;
    let (flags, rest) = segment_flags_at(end, rest)?;
    Ok((SegmentInfo { name, align, flags }, rest))
}

impl Form for SegmentInfo {
    ghost use Rattle.linking_section.specs.ItemLaws.{segment_reader};

    ghost spells = { SpellsSegmentInfo };

    ghost read_at = { segment_at };

    ghost exact = { segment_reader };

    fn form_at(alloc: Global, end: usize, bytes: &[u8]) -> Result<(SegmentInfo, &[u8]), ReadFault> {
        segment_at(alloc, end, bytes)
    }
}
