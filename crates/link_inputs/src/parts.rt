//! How the objects are divided among workers.
ghost use Rattle.std.specs.Prelude.{◌≡◌, ◌≤◌, length, max};
ghost use Rattle.link_inputs.specs.Parts.{first_of};

/// So many bytes are worth a thread: starting one costs 16 to 40 microseconds.
const GRAIN: u64 = 1 << 15;

/// Into how many parts so many objects are cut, of files of this length. Two objects have two
/// workers, where there are so many.
pub fn parts_of(len: u64, objects: usize, workers: u32) -> u32
    requires { 1 ≤ workers }
    ensures range { (1 ≤ result) × (result ≤ workers) × (result ≤ max 1 objects) }
    ensures two { 2 ≤ objects → 2 ≤ workers → 2 ≤ result }
{
    let wide = (len / GRAIN + 2).min(u64::from(workers)) as usize;
    wide.min(objects).max(1) as u32
}

/// The first object of a part. Each has as many, and the first ones one more where they can't be
/// divided evenly.
#[tactic(auto, using(crate::specs::PartLaws::first_low))]
pub fn first_of(objects: usize, parts: u32, part: u32) -> usize
    requires { 1 ≤ parts }
    ensures is { result ≡ first_of objects parts part }
    ensures within { result ≤ objects }
{
    let width = parts as usize;
    let part = part.min(parts) as usize;
    part * (objects / width) + part.min(objects % width)
}
