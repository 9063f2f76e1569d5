//! The object as pieces that are written one behind another, so that workers can share them: all
//! before the code section, what leads to bodies, each body, and so on.
ghost use Rattle.std.specs.Prelude.{◌≡◌, true, ◌≤◌, ◌<◌, ◌+◌, ◌^◌, length, IfOk};
ghost use Rattle.image_emit.specs.Put.{IsPut, HasRoom};
ghost use Rattle.partial_bytes.specs.Pieces.{head_bytes, reloc_head, piece_bytes, pieces_bytes, piece_len, pieces_len, starts_from, fits, Fit};

use crate::entries::put_entries;
use crate::part::{PartKind, head_size, put_part};
use crate::sections::{front_size, linking_size, put_front, put_linking};
use crate::sums::{exact, sum};
use crate::tree::{Part, Tree};
use image_emit::put::{plus, put_byte, put_number, put_sized, sized_size, u32_size};
use reloc_section::Reloc;
use std::alloc::Global;
use wl_base::{OutOfMemory, Seq};

/// What is written at once.
#[derive(Clone, Copy)]
pub enum Piece<'a> {
    /// All before the code section.
    Front(&'a Tree<'a>),
    /// What stands before the parts of a section.
    Head {
        id: u8,
        /// The size of the payload.
        size: u32,
        /// How many parts there are.
        count: u32,
    },
    /// A part.
    Part {
        kind: PartKind,
        part: Part<'a>,
    },
    /// The section `linking`.
    Linking(&'a Tree<'a>),
    /// What stands before the relocations of a section.
    RelocHead {
        /// The section's name.
        name: &'a [u8],
        /// The size of the payload.
        size: u32,
        /// The place of the section whose relocations they are.
        target: u32,
        /// How many relocations there are.
        count: u32,
    },
    /// The relocations of a part, by their places in it.
    Relocs {
        /// Where the part stands in its section.
        from: u32,
        /// How many bytes their entries have.
        len: u64,
        part: Part<'a>,
    },
}

// ---- how long they are

fn reloc_head_size(name: &[u8], size: u32, target: u32, count: u32) -> Result<u64, OutOfMemory>
    ensures { IfOk result (λ n. n ≡ length (reloc_head name.now size target count)) }
{
    let numbers = u32_size(u64::from(target)) + u32_size(u64::from(count));
    let name = exact(sized_size(name))?;
    sum(1 + u32_size(u64::from(size)) + numbers, name)
}

/// How many bytes a piece has.
fn piece_len(q: &Piece<'_>) -> Result<u64, OutOfMemory>
    requires { fits q.now ≡ true }
    ensures { IfOk result (λ n. n ≡ piece_len q.now) }
{
    match q {
        Piece::Front(tree) => exact(front_size(tree)),
        Piece::Head { size, count, .. } => {
            Ok(1 + u32_size(u64::from(*size)) + u32_size(u64::from(*count)))
        }
        Piece::Part { kind, part } => Ok(head_size(*kind, part) + part.bytes.len() as u64),
        Piece::Linking(tree) => exact(linking_size(tree)),
        Piece::RelocHead {
            name,
            size,
            target,
            count,
        } => reloc_head_size(name, *size, *target, *count),
        Piece::Relocs { len, .. } => Ok(*len),
    }
}

/// Where each piece begins, and how many bytes all have.
pub fn starts_of(alloc: Global, pieces: &[Piece<'_>]) -> Result<(Seq<u64>, u64), OutOfMemory>
    requires { Fit pieces.now }
    ensures { IfOk result (λ x. (x.0 ≡ starts_from 0 pieces.now) × (x.1 ≡ pieces_len pieces.now)) }
{
    let mut starts = Seq::with_room(alloc, pieces.len())?;
    let mut at = 0u64;
    for q in pieces {
        starts.push(at)?;
        let len = piece_len(q)?;
        at = sum(at, len)?;
    }
    Ok((starts, at))
}

// ---- how they are written

fn put_head(id: u8, size: u32, count: u32, at: usize, out: &mut [u8]) -> usize
    requires { HasRoom out.old at (head_bytes id size count) }
    ensures { IsPut out.old at (head_bytes id size count) result out.new }
{
    let at = put_byte(id, at, out);
    let at = put_number(size, at, out);
    put_number(count, at, out)
}

fn put_reloc_head(
    name: &[u8],
    size: u32,
    target: u32,
    count: u32,
    at: usize,
    out: &mut [u8],
) -> usize
    requires { HasRoom out.old at (reloc_head name.now size target count) }
    ensures { IsPut out.old at (reloc_head name.now size target count) result out.new }
{
    let at = put_byte(0, at, out);
    let at = put_number(size, at, out);
    let at = put_sized(name, at, out);
    let at = put_number(target, at, out);
    put_number(count, at, out)
}

/// Writes a piece at a place, and tells where it ends.
fn put_piece(q: &Piece<'_>, at: usize, out: &mut [u8]) -> usize
    requires fits { fits q.now ≡ true }
    requires room { at + piece_len q.now ≤ length out.old }
    requires short { length out.old < 2 ^ 31 }
    ensures { IsPut out.old at (piece_bytes q.now) result out.new }
{
    match q {
        Piece::Front(tree) => put_front(tree, at, out),
        Piece::Head { id, size, count } => put_head(*id, *size, *count, at, out),
        Piece::Part { kind, part } => put_part(*kind, part, at, out),
        Piece::Linking(tree) => put_linking(tree, at, out),
        Piece::RelocHead {
            name,
            size,
            target,
            count,
        } => put_reloc_head(name, *size, *target, *count, at, out),
        Piece::Relocs { from, part, .. } => put_entries(*from, part, at, out),
    }
}

/// Writes pieces over as many bytes.
pub fn put_pieces(pieces: &[Piece<'_>], out: &mut [u8])
    requires fit { Fit pieces.now }
    requires room { length out.old ≡ pieces_len pieces.now }
    requires short { length out.old < 2 ^ 31 }
    ensures { out.new ≡ pieces_bytes pieces.now }
{
    let mut at = 0;
    for q in pieces {
        at = put_piece(q, at, out);
    }
}
