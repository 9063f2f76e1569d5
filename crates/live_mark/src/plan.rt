//! What is to be done in a round.
ghost use Rattle.std.specs.Prelude.{◌≡◌, ◌≤◌, ◌<◌, ◌^◌};
ghost use Rattle.live_mark.specs.Shares.{cut};

use mark_bits::MarkBits;
use std::alloc::Global;

/// A round of marks. Each of its places asks for chunks to be marked: in the first round a place of the
/// roots for the root, later a place of the frontier for what the chunk there refers to.
#[derive(Clone, Copy)]
pub struct Plan<'a> {
    pub alloc: Global,
    pub bits: &'a MarkBits,
    /// Whether it is the first round.
    pub rooting: bool,
    pub places: &'a [u32],
    /// How many workers there are.
    pub workers: u32,
}

/// So many places are worth a thread: starting one costs 16 to 40 microseconds, and a place 10 to 250
/// nanoseconds.
const GRAIN: usize = 4096;

/// Into how many parts the places of a round are cut, each for a worker. A thin round has one part, which
/// is worked on the caller's thread. The first one has two wherever there are two roots and two workers.
pub fn parts_of(places: usize, rooting: bool, workers: u32) -> u32
    requires { (1 ≤ workers) × (workers ≤ 64) }
    ensures { (1 ≤ result) × (result ≤ workers) }
{
    let wide = places / GRAIN;
    if wide >= workers as usize {
        workers
    } else if wide == 0 && rooting && places > 1 && workers > 1 {
        2
    } else {
        wide as u32 + 1
    }
}

/// Where a part of the places begins.
pub fn begin(places: usize, parts: u32, part: u32) -> usize
    requires { (1 ≤ parts) × (part ≤ parts) × (parts ≤ 64) × (places < 2 ^ 32) }
    ensures is { result ≡ cut places parts part }
    ensures within { result ≤ places }
{
    places * part as usize / parts as usize
}
