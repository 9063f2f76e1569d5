//! The joined sections, written by several workers: each has a run of pieces.
ghost use Rattle.std.specs.Prelude.{◌≡◌, true, ◌≤◌, ◌<◌, ◌+◌, ◌*◌, ◌/◌, length, slice_range, take};
ghost use Rattle.std.specs.List.{AllByRecursion, list_all};
ghost use Rattle.image_emit.specs.Parts.{Rising, below};
ghost use Rattle.debug_out.specs.Inputs.{places_of};
ghost use Rattle.debug_out.specs.Pieces.{pieces_bytes, pieces_len, starts_from, part_first, part_start, fits, Fits};

use crate::pieces::{Piece, put_pieces};
use crate::places::DebugPlaces;
use std::thread::Threads;
use wl_base::Seq;
use wl_fan::{Slices, Workers, each_slice};

/// So many bytes are worth a thread; two workers have a part each in any case.
const GRAIN: u64 = 1 << 18;

/// Into how many parts so many bytes are cut.
fn parts_of(len: u64, workers: u32) -> u32
    requires { (1 ≤ workers) × (workers ≤ 64) }
    ensures { (1 ≤ result) × (result ≤ workers) }
{
    (len / GRAIN + 2).min(u64::from(workers)) as u32
}

/// How many starts are below a number.
fn below(starts: &[u64], n: u64) -> usize
    requires { Rising starts.now }
    ensures { result ≡ below n starts.now }
{
    starts.partition_point(|start| *start < n)
}

/// The pieces from one place to another.
fn between<'a, 'b>(pieces: &'b [Piece<'a>], from: usize, to: usize) -> &'b [Piece<'a>]
    requires up { from ≤ to }
    requires inside { to ≤ length pieces.now }
    ensures { result.now ≡ slice_range pieces.now from to }
{
    &pieces[from..][..to - from]
}

/// Pieces that are written in so many parts.
#[derive(Drop)]
pub struct Division<'a> {
    pub places: &'a DebugPlaces,
    pub rows: &'a [Seq<Option<u32>>],
    pub pieces: &'a [Piece<'a>],
    pub starts: &'a [u64],
    pub len: u64,
    pub width: u32,
    ghost placed: { starts.now ≡ starts_from 0 pieces.now },
    ghost long: { len ≡ pieces_len pieces.now },
    ghost fit: { list_all fits pieces.now ≡ true },
    ghost some: { 1 ≤ width },
}

impl Division<'_> {
    /// The piece at which a part begins.
    fn first(&self, part: u32) -> usize
        ensures { result ≡ part_first (starts_from 0 self.now.pieces.now) (pieces_len self.now.pieces.now) self.now.width part }
    {
        if self.width <= part {
            return self.starts.len();
        }
        below(
            self.starts,
            self.len / u64::from(self.width) * u64::from(part),
        )
    }

    /// Where a piece begins; behind the last one it is where all end.
    fn start(&self, piece: usize) -> usize
        ensures { result ≡ pieces_len (take piece self.now.pieces.now) }
    {
        match self.starts.get(piece) {
            Some(start) => *start as usize,
            None => self.len as usize,
        }
    }
}

impl Slices<u8> for Division<'_> {
    ghost use Rattle.std.specs.Prelude.{◌≡◌};
    ghost use Rattle.debug_out.specs.Inputs.{places_of};
    ghost use Rattle.debug_out.specs.PieceLaws.{starts_rise};
    ghost use Rattle.debug_out.specs.Pieces.{pieces_bytes, part_start, part_pieces};

    ghost begins = { λ s part. part_start s.pieces.now s.width part };

    ghost worked = { λ s part old new. new ≡ pieces_bytes s.rows.now (places_of s.places.now) (part_pieces s.pieces.now s.width part) };

    ghost rises = { λ s p q le below. starts_rise s.pieces.now s.width p q le };

    fn cut(&self, part: u32) -> usize {
        self.start(self.first(part))
    }

    fn work(&self, part: u32, items: &mut [u8]) {
        let from = self.first(part);
        let to = self.first(part + 1);
        let pieces = between(self.pieces, from, to);
        put_pieces(self.places, self.rows, pieces, items);
    }
}

/// Writes pieces over as many bytes. It takes no memory and can't fail.
pub fn write<'a, R: Threads + Sync>(
    rt: &R,
    places: &'a DebugPlaces,
    rows: &'a [Seq<Option<u32>>],
    pieces: &'a [Piece<'a>],
    starts: &'a [u64],
    len: u64,
    workers: Workers,
    out: &mut [u8],
)
    requires placed { starts.now ≡ starts_from 0 pieces.now }
    requires long { len ≡ pieces_len pieces.now }
    requires fit { AllByRecursion Fits pieces.now }
    requires room { length out.old ≡ len }
    ensures { out.new ≡ pieces_bytes rows.now (places_of places.now) pieces.now }
{
    let width = parts_of(len, workers.count());
    let division = Division {
        places,
        rows,
        pieces,
        starts,
        len,
        width,
    };
    each_slice(rt, &division, out, 0, width);
}
