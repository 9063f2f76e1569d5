//! How the output is cut into parts.
ghost use Rattle.std.specs.Prelude.{◌≡◌, ◌+◌, ◌≤◌, ◌<◌, ◌^◌, length, max};
ghost use Rattle.image_emit.specs.Parts.{Rising, below, first_piece};

/// So many bytes are worth a thread: starting one costs 16 to 40 microseconds, in which some 200,000 bytes are copied.
const GRAIN: u64 = 1 << 20;

/// Into how many parts an output of this length is cut, with so many pieces. Two pieces have two workers, where there are so many.
pub fn parts_of(len: u64, pieces: usize, workers: u32) -> u32
    requires { (1 ≤ workers) × (workers ≤ 64) }
    ensures { (1 ≤ result) × (result ≤ workers) × (result ≤ max 1 pieces) }
{
    let wide = (len / GRAIN + 2).min(u64::from(workers)) as usize;
    wide.min(pieces).max(1) as u32
}

/// The piece at which a part begins, of so many parts.
pub fn first_piece(places: &[u64], len: u64, width: u32, part: u32) -> usize
    requires rising { Rising places.now }
    requires len { len < 2 ^ 31 }
    requires width { (1 ≤ width) × (width ≤ max 1 (length places.now)) }
    ensures { result ≡ first_piece places.now len width part }
{
    let count = places.len();
    if part >= width {
        return count;
    }
    let share = below(places, len * u64::from(part) / u64::from(width));
    let least = part as usize;
    let most = (count + least).saturating_sub(width as usize);
    least.max(most.min(share))
}

// How many places are below a number.
fn below(places: &[u64], n: u64) -> usize
    requires { Rising places.now }
    ensures { result ≡ below n places.now }
{
    places.partition_point(|place| *place < n)
}
