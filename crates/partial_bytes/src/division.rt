//! The pieces, written by several workers: each has a run of them.
ghost use Rattle.std.specs.Prelude.{◌≡◌, true, ◌≤◌, ◌<◌, ◌+◌, ◌*◌, ◌/◌, ◌^◌, length, slice_range, take};
ghost use Rattle.std.specs.List.{list_all};
ghost use Rattle.image_emit.specs.Parts.{Rising, below};
ghost use Rattle.partial_bytes.specs.Pieces.{pieces_bytes, pieces_len, starts_from, run_first, run_start, fits, Fit};

use crate::pieces::{Piece, put_pieces};
use std::thread::Threads;
use wl_base::Seq;
use wl_fan::{Slices, Workers, each_slice};

/// So many bytes are worth a thread; two workers have a run each in any case.
const GRAIN: u64 = 1 << 18;

/// Into how many runs so many bytes are cut.
fn runs_of(len: u64, workers: u32) -> u32
    requires { (1 ≤ workers) × (workers ≤ 64) }
    ensures { (1 ≤ result) × (result ≤ workers) }
{
    (len / GRAIN + 2).min(u64::from(workers)) as u32
}

/// How many starts are below a number.
fn below(starts: &[u64], n: u64) -> usize
    requires { Rising starts.now }
    ensures { result ≡ below n starts.now }
{
    starts.partition_point(|start| *start < n)
}

/// The pieces from one place to another.
fn between<'a, 'b>(pieces: &'b [Piece<'a>], from: usize, to: usize) -> &'b [Piece<'a>]
    requires up { from ≤ to }
    requires inside { to ≤ length pieces.now }
    ensures { result.now ≡ slice_range pieces.now from to }
{
    &pieces[from..][..to - from]
}

/// Pieces that are written in so many runs.
#[derive(Drop)]
pub struct Division<'a> {
    pub pieces: &'a [Piece<'a>],
    pub starts: &'a [u64],
    pub len: u64,
    pub width: u32,
    ghost placed: { starts.now ≡ starts_from 0 pieces.now },
    ghost long: { len ≡ pieces_len pieces.now },
    ghost fit: { list_all fits pieces.now ≡ true },
    ghost short: { len < 2 ^ 31 },
    ghost some: { 1 ≤ width },
}

impl Division<'_> {
    /// The piece at which a run begins.
    fn first(&self, run: u32) -> usize
        ensures { result ≡ run_first (starts_from 0 self.now.pieces.now) (pieces_len self.now.pieces.now) self.now.width run }
    {
        if self.width <= run {
            return self.starts.len();
        }
        below(
            self.starts,
            self.len / u64::from(self.width) * u64::from(run),
        )
    }

    /// Where a piece begins; behind the last one it is where all end.
    fn start(&self, piece: usize) -> usize
        ensures { result ≡ pieces_len (take piece self.now.pieces.now) }
    {
        match self.starts.get(piece) {
            Some(start) => *start as usize,
            None => self.len as usize,
        }
    }
}

impl Slices<u8> for Division<'_> {
    ghost use Rattle.std.specs.Prelude.{◌≡◌};
    ghost use Rattle.partial_bytes.specs.PieceLaws.{starts_rise};
    ghost use Rattle.partial_bytes.specs.Pieces.{pieces_bytes, run_start, run_pieces};

    ghost begins = { λ s run. run_start s.pieces.now s.width run };

    ghost worked = { λ s run old new. new ≡ pieces_bytes (run_pieces s.pieces.now s.width run) };

    ghost rises = { λ s p q le below. starts_rise s.pieces.now s.width p q le };

    fn cut(&self, run: u32) -> usize {
        self.start(self.first(run))
    }

    fn work(&self, run: u32, items: &mut [u8]) {
        let from = self.first(run);
        let to = self.first(run + 1);
        let pieces = between(self.pieces, from, to);
        put_pieces(pieces, items);
    }
}

/// Writes pieces over as many bytes. It takes no memory and can't fail.
pub fn write<'a, R: Threads + Sync>(
    rt: &R,
    pieces: &'a [Piece<'a>],
    starts: &'a [u64],
    len: u64,
    workers: Workers,
    out: &mut [u8],
)
    requires placed { starts.now ≡ starts_from 0 pieces.now }
    requires long { len ≡ pieces_len pieces.now }
    requires fit { Fit pieces.now }
    requires short { len < 2 ^ 31 }
    requires room { length out.old ≡ len }
    ensures { out.new ≡ pieces_bytes pieces.now }
{
    let width = runs_of(len, workers.count());
    let division = Division {
        pieces,
        starts,
        len,
        width,
    };
    each_slice(rt, &division, out, 0, width);
}
