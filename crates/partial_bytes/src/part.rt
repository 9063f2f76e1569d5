//! Bodies and data segments: how they are written, with empty windows.
ghost use Rattle.std.specs.Prelude.{◌≡◌, ◌+◌, ◌<◌, ◌≤◌, ◌^◌, true, length};
ghost use Rattle.std.specs.List.{list_all};
ghost use Rattle.image_emit.specs.Put.{IsPut, HasRoom};
ghost use Rattle.reloc_apply.specs.Windows.{over, spelled};
ghost use Rattle.reloc_apply.specs.Apart.{size_of};
ghost use Rattle.link_rules.specs.Values.{form_of};
ghost use Rattle.partial_bytes.specs.Relocs.{relocs_by, relocs_of};
ghost use Rattle.partial_bytes.specs.Told.{emptied};
ghost use Rattle.partial_bytes.specs.Written.{head_of, lead, head_len, part_len, part_spelled, window_fits, part_fits};

use crate::entries::reloc_of;
use crate::tree::{Numbers, Part};
use image_emit::put::{put_bytes, put_number, u32_size};
use leb_codec::{put_s32_5, put_u32_5};
use link_program::Named;
use reloc_apply::Form;
use reloc_section::kinds;

/// What a part is.
#[derive(Clone, Copy)]
pub enum PartKind {
    /// A function's body, behind its size.
    Body,
    /// A data segment, behind the flag 0, the offset 0 and its size.
    Segment,
}

impl PartKind {
    /// What stands before a part's size.
    fn lead<'a>(self) -> &'a [u8]
        ensures { result.now ≡ lead self }
    {
        match self {
            PartKind::Body => &[],
            PartKind::Segment => b"\0\x41\0\x0b".as_slice(),
        }
    }
}

/// How many bytes stand before a part's own.
pub fn head_size(kind: PartKind, part: &Part<'_>) -> u64
    ensures size { result ≡ head_len kind part.now }
    ensures few { result ≤ 9 }
{
    kind.lead().len() as u64 + u32_size(part.bytes.len() as u64)
}

/// How the number in a window of a relocation of this type is spelled.
pub fn form_of(kind: u8) -> Form
    ensures { result ≡ form_of kind }
{
    match kind {
        kinds::TABLE_INDEX_SLEB
        | kinds::MEMORY_ADDR_SLEB
        | kinds::MEMORY_ADDR_REL_SLEB
        | kinds::TABLE_INDEX_REL_SLEB => Form::Signed5,
        kinds::TABLE_INDEX_I32 | kinds::MEMORY_ADDR_I32 => Form::Word4,
        _ => Form::Unsigned5,
    }
}

/// Spells 0 in the window at this place.
fn empty_window(form: Form, at: usize, out: &mut [u8])
    requires { at + size_of form ≤ length out.old }
    ensures bytes { out.new ≡ over at (spelled form 0) out.old }
    ensures len { length out.new ≡ length out.old }
{
    match form {
        Form::Unsigned5 => out[at..at + 5].copy_from_slice(put_u32_5(0).as_slice()),
        Form::Signed5 => out[at..at + 5].copy_from_slice(put_s32_5(0).as_slice()),
        Form::Word4 => out[at..at + 4].fill(0),
    }
}

/// Empties the windows of relocations, by what they name.
fn empty_windows(numbers: &Numbers<'_>, named: &[Named], out: &mut [u8])
    requires { list_all (window_fits (length out.old)) (relocs_by numbers.now named.now) ≡ true }
    ensures bytes { out.new ≡ emptied (relocs_by numbers.now named.now) out.old }
    ensures len { length out.new ≡ length out.old }
{
    for x in named {
        let x = reloc_of(numbers, *x);
        empty_window(form_of(x.kind), x.offset as usize, out);
    }
}

/// Writes the bytes of a part, its windows empty, over as many bytes.
fn put_emptied(part: &Part<'_>, out: &mut [u8])
    requires fits { part_fits part.now ≡ true }
    requires room { length out.old ≡ length part.now.bytes.now }
    ensures bytes { out.new ≡ emptied (relocs_of part.now) part.now.bytes.now }
    ensures len { length out.new ≡ length out.old }
{
    out.copy_from_slice(part.bytes);
    empty_windows(part.numbers, part.named, out);
}

fn put_head(kind: PartKind, part: &Part<'_>, at: usize, out: &mut [u8]) -> usize
    requires room { HasRoom out.old at (head_of kind part.now.bytes.now) }
    requires short { length part.now.bytes.now < 2 ^ 31 }
    ensures { IsPut out.old at (head_of kind part.now.bytes.now) result out.new }
{
    let at = put_bytes(kind.lead(), at, out);
    put_number(part.bytes.len() as u32, at, out)
}

/// Writes a part behind what leads to it.
pub fn put_part(kind: PartKind, part: &Part<'_>, at: usize, out: &mut [u8]) -> usize
    requires fits { part_fits part.now ≡ true }
    requires room { at + part_len kind part.now ≤ length out.old }
    requires short { length out.old < 2 ^ 31 }
    ensures { IsPut out.old at (part_spelled kind part.now) result out.new }
{
    let at = put_head(kind, part, at, out);
    let end = at + part.bytes.len();
    put_emptied(part, &mut out[at..end]);
    end
}
