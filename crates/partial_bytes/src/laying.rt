//! Which pieces the object has.
ghost use Rattle.std.specs.Prelude.{◌≡◌, ◌++◌, true, OnOk, IfOk};
ghost use Rattle.std.specs.List.{list_all};
ghost use Rattle.partial_rules.specs.Relocatable.{reloc_section};
ghost use Rattle.partial_bytes.specs.declared.part.PartKind.TheVariants as kinds;
ghost use Rattle.partial_bytes.specs.Pieces.{pieces_bytes, part_pieces, reloc_pieces, Fit};
ghost use Rattle.partial_bytes.specs.Measured.{IsSized, entry_lens, lens_in};
ghost use Rattle.partial_bytes.specs.Written.{payload_len, parts_section, relocs_in, part_fits, written};

use crate::lengths::len_at;
use crate::measuring::{Measured, SectionSize, reloc_payload};
use crate::part::{PartKind, head_size};
use crate::pieces::Piece;
use crate::sections::{code_at, present};
use crate::sums::{exact, short, sum};
use crate::tree::{Part, Tree};
use image_emit::put::u32_size;
use std::alloc::Global;
use wl_base::{OutOfMemory, Seq};

fn push_parts<'a>(
    kind: PartKind,
    parts: &'a [Part<'a>],
    out: &mut Seq<Piece<'a>>,
) -> Result<(), OutOfMemory>
    ensures { OnOk result (out.new ≡ out.old ++ part_pieces kind parts.now) }
{
    for part in parts {
        out.push(Piece::Part { kind, part: *part })?;
    }
    Ok(())
}

/// Puts the pieces of a section of parts, unless there are none.
fn push_section<'a>(
    id: u8,
    kind: PartKind,
    parts: &'a [Part<'a>],
    payload: u64,
    out: &mut Seq<Piece<'a>>,
) -> Result<(), OutOfMemory>
    requires { payload ≡ payload_len kind parts.now }
    ensures bytes { OnOk result (pieces_bytes out.new ≡ pieces_bytes out.old ++ parts_section id kind parts.now) }
    ensures fit { OnOk result (list_all part_fits parts.now ≡ true → Fit out.old → Fit out.new) }
{
    if parts.is_empty() {
        return Ok(());
    }
    let size = short(payload)?;
    let count = short(parts.len() as u64)?;
    out.push(Piece::Head { id, size, count })?;
    push_parts(kind, parts, out)?;
    Ok(())
}

/// Puts the relocations of the parts that stand in their section from a place on.
fn push_entries<'a>(
    kind: PartKind,
    at: u64,
    parts: &'a [Part<'a>],
    lens: &[u64],
    out: &mut Seq<Piece<'a>>,
) -> Result<(), OutOfMemory>
    requires { lens.now ≡ entry_lens kind at parts.now }
    ensures pieces { OnOk result (out.new ≡ out.old ++ reloc_pieces kind at parts.now) }
    ensures fit { OnOk result (list_all part_fits parts.now ≡ true → Fit out.old → Fit out.new) }
{
    let mut at = at;
    for number in 0..parts.len() {
        let part = &parts[number];
        let from = sum(at, head_size(kind, part))?;
        let end = short(sum(from, part.bytes.len() as u64)?)?;
        let len = exact(len_at(lens, number))?;
        out.push(Piece::Relocs {
            from: from as u32,
            len,
            part: *part,
        })?;
        at = u64::from(end);
    }
    Ok(())
}

/// Puts the pieces of a section of relocations, unless there are none.
fn push_relocs<'a>(
    name: &'a [u8],
    target: u32,
    kind: PartKind,
    parts: &'a [Part<'a>],
    size: SectionSize,
    lens: &[u64],
    out: &mut Seq<Piece<'a>>,
) -> Result<(), OutOfMemory>
    requires sized { IsSized kind parts.now size }
    requires lens { lens.now ≡ lens_in kind parts.now }
    ensures bytes { OnOk result (pieces_bytes out.new ≡ pieces_bytes out.old ++ reloc_section name.now target (relocs_in kind parts.now)) }
    ensures fit { OnOk result (list_all part_fits parts.now ≡ true → Fit out.old → Fit out.new) }
{
    if size.count == 0 {
        return Ok(());
    }
    let payload = reloc_payload(name, target, size)?;
    let payload = short(payload)?;
    let count = short(size.count)?;
    out.push(Piece::RelocHead {
        name,
        size: payload,
        target,
        count,
    })?;
    push_entries(kind, u32_size(parts.len() as u64), parts, lens, out)?;
    Ok(())
}

/// How many pieces there are at most: two for each part, and those that stand before them.
fn most_pieces(tree: &Tree<'_>) -> usize {
    let parts = tree.bodies.len().saturating_add(tree.segments.len());
    parts.saturating_add(parts).saturating_add(6)
}

/// The pieces of the object.
pub fn pieces_of<'a>(
    alloc: Global,
    tree: &'a Tree<'a>,
    m: &Measured,
) -> Result<Seq<Piece<'a>>, OutOfMemory>
    requires bodies { IsSized kinds.Body tree.now.bodies.now m.now.bodies }
    requires segments { IsSized kinds.Segment tree.now.segments.now m.now.segments }
    requires body_lens { m.now.body_lens ≡ lens_in kinds.Body tree.now.bodies.now }
    requires segment_lens { m.now.segment_lens ≡ lens_in kinds.Segment tree.now.segments.now }
    ensures bytes { IfOk result (λ pieces. pieces_bytes pieces ≡ written tree.now) }
    ensures fit { IfOk result (λ pieces. list_all part_fits tree.now.bodies.now ≡ true → list_all part_fits tree.now.segments.now ≡ true → Fit pieces) }
{
    let mut out = Seq::with_room(alloc, most_pieces(tree))?;
    let code = code_at(tree);
    let data = code + present(tree.bodies);
    out.push(Piece::Front(tree))?;
    push_section(10, PartKind::Body, tree.bodies, m.bodies.payload, &mut out)?;
    push_section(
        11,
        PartKind::Segment,
        tree.segments,
        m.segments.payload,
        &mut out,
    )?;
    out.push(Piece::Linking(tree))?;
    push_relocs(
        b"reloc.CODE".as_slice(),
        code,
        PartKind::Body,
        tree.bodies,
        m.bodies,
        m.body_lens.as_slice(),
        &mut out,
    )?;
    push_relocs(
        b"reloc.DATA".as_slice(),
        data,
        PartKind::Segment,
        tree.segments,
        m.segments,
        m.segment_lens.as_slice(),
        &mut out,
    )?;
    Ok(out)
}
