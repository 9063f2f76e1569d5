//! What each worker writes.
ghost use Rattle.std.specs.Prelude.{◌≡◌, ◌+◌, ◌-◌, ◌≤◌, ◌<◌, ◌^◌, drop, length, max};
ghost use Rattle.image_emit.specs.Bytes.{bytes_of, tree_of};
ghost use Rattle.image_emit.specs.Pieces.{source_places};
ghost use Rattle.image_emit.specs.Parts.{Sums, upto, part_first, part_start};
ghost use Rattle.image_emit.specs.Put.{IsPut};
ghost use Rattle.image_emit.specs.Sizes.{bodies_len, data_len};

use crate::Image;
use crate::fronts::put_front;
use crate::parts::first_piece;
use crate::sources::{bytes_at, put_piece};
use wl_base::Seq;
use wl_fan::Slices;
use wl_outside::{Gate, Phase};

/// An image that is written in so many parts.
#[derive(Drop)]
pub struct Division<'a> {
    pub image: &'a Image,
    pub places: &'a [u64],
    pub files: &'a [Seq<u8>],
    pub len: u64,
    pub width: u32,
    ghost placed: { places.now ≡ source_places (tree_of files.now image.now) },
    ghost long: { len ≡ length (bytes_of (tree_of files.now image.now)) },
    ghost sums: { Sums files.now image.now },
    ghost short: { (len < 2 ^ 31) × (bodies_len image.now.bodies < 2 ^ 31) × (data_len image.now.blocks < 2 ^ 31) },
    ghost parts: { (1 ≤ width) × (width ≤ max 1 (length places.now)) },
}

impl Division<'_> {
    // The piece at which a part begins.
    fn first(&self, part: u32) -> usize
        ensures { result ≡ part_first (tree_of self.now.files.now self.now.image.now) self.now.width part }
    {
        first_piece(self.places, self.len, self.width, part)
    }

    // Where a piece ends.
    fn end(&self, piece: usize) -> usize
        requires { piece < length self.now.places.now }
        ensures { result ≡ length (upto (tree_of self.now.files.now self.now.image.now) (piece + 1)) }
    {
        self.places[piece] as usize + bytes_at(self.image, self.files, piece).len()
    }

    // Where a part begins.
    fn start(&self, part: u32) -> usize
        ensures { result ≡ part_start (tree_of self.now.files.now self.now.image.now) self.now.width part }
    {
        if part == 0 {
            0
        } else if part >= self.width {
            self.len as usize
        } else {
            self.end(self.first(part) - 1)
        }
    }

    // Writes what stands before the first piece, in the first part.
    fn open(&self, part: u32, items: &mut [u8]) -> usize
        requires { (part + 1 < 2 ^ 32) × (length items.old ≡ part_start (tree_of self.now.files.now self.now.image.now) self.now.width (part + 1) - part_start (tree_of self.now.files.now self.now.image.now) self.now.width part) }
        ensures { IsPut items.old 0 (drop (part_start (tree_of self.now.files.now self.now.image.now) self.now.width part) (upto (tree_of self.now.files.now self.now.image.now) (part_first (tree_of self.now.files.now self.now.image.now) self.now.width part))) result items.new }
    {
        if part == 0 {
            put_front(self.image, self.files, items)
        } else {
            0
        }
    }
}

/// The workers' parts of an image.
#[derive(Drop)]
pub struct Emitter<'a, G: Gate> {
    pub division: Division<'a>,
    pub gate: &'a G,
}

impl<G: Gate> Slices<u8> for Emitter<'_, G> {
    ghost use Rattle.std.specs.Prelude.{◌≡◌, ◌+◌, slice_range};
    ghost use Rattle.image_emit.specs.PartLaws.{emitter_rises};
    ghost use Rattle.image_emit.specs.Bytes.{bytes_of, tree_of};
    ghost use Rattle.image_emit.specs.Parts.{part_start};

    ghost begins = { λ s part. part_start (tree_of s.division.files.now s.division.image.now) s.division.width part };

    ghost worked = { λ s part old new. new ≡ slice_range (bytes_of (tree_of s.division.files.now s.division.image.now)) (part_start (tree_of s.division.files.now s.division.image.now) s.division.width part) (part_start (tree_of s.division.files.now s.division.image.now) s.division.width (part + 1)) };

    ghost rises = { λ s p q le below. emitter_rises (tree_of s.division.files.now s.division.image.now) s.division.places.now s.division.width s.division.placed s.division.parts p q le };

    fn cut(&self, part: u32) -> usize {
        self.division.start(part)
    }

    // Writes the pieces of a part. The worker passes the gate before each.
    fn work(&self, part: u32, items: &mut [u8]) {
        let mut at = self.division.open(part, items);
        let from = self.division.first(part);
        let to = self.division.first(part + 1);
        for job in from..to {
            let number = u32::try_from(job).unwrap_or(u32::MAX);
            self.gate.turn(Phase::Fill, part, number);
            at = put_piece(self.division.image, self.division.files, job, at, items);
        }
    }
}
