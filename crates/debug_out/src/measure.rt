//! How many bytes the joined sections have.
ghost use Rattle.std.specs.Prelude.{◌≡◌, ◌+◌, ◌<◌, ◌≤◌, List, Some, length, slice_get, IfSome, ℕ};
ghost use Rattle.leb_codec.specs.Shortest.{u32 as shortest_u32};
ghost use Rattle.debug_rules.specs.Faults.{Debug};
ghost use Rattle.debug_rules.specs.Joined.{length_of};
ghost use Rattle.debug_out.specs.Grouped.{HasLengths, payload_len, section_len, sections_len};

use wl_base::NameTable;

/// The length of the shortest spelling.
#[tactic(auto, using(image_emit::proofs::Room::u32_is))]
pub fn u32_size(n: u64) -> u64
    ensures size { result ≡ length (shortest_u32 n) }
    ensures few { result ≤ 5 }
{
    if n < 128 {
        1
    } else if n / 128 < 128 {
        2
    } else if n / 128 / 128 < 128 {
        3
    } else if n / 128 / 128 / 128 < 128 {
        4
    } else {
        5
    }
}

/// How many bytes stand in the joined section of a name whose contributions have so many.
pub fn payload_len(name: &[u8], len: u64) -> Option<u64>
    ensures { IfSome result (λ n. n ≡ payload_len name.now len) }
{
    let own = name.len() as u64;
    let head = u32_size(own).checked_add(own)?;
    head.checked_add(len)
}

/// How many bytes it has.
fn section_len(name: &[u8], len: u64) -> Option<u64>
    ensures { IfSome result (λ n. n ≡ section_len name.now len) }
{
    let payload = payload_len(name, len)?;
    (1 + u32_size(payload)).checked_add(payload)
}

/// How many bytes the joined section of this number has, by the lengths of the names.
fn numbered_len(names: &NameTable, lengths: &[u64], n: u32) -> Option<u64>
    requires { n < length names.now.names }
    ensures { IfSome result (λ k. (ds : List Debug) (name : List ℕ) → slice_get names.now.names n ≡ Some name → HasLengths names.now.names lengths.now ds → k ≡ section_len name (length_of name ds)) }
{
    let name = names.name(n);
    match lengths.get(n as usize) {
        Some(len) => section_len(name, *len),
        None => None,
    }
}

/// How many bytes all have; `None` where 64 bits don't hold them.
pub fn sections_len(names: &NameTable, lengths: &[u64]) -> Option<u64>
    ensures { IfSome result (λ k. (ds : List Debug) → HasLengths names.now.names lengths.now ds → k ≡ sections_len ds names.now.names) }
{
    let mut total = 0u64;
    for n in 0..names.count() {
        let Some(len) = numbered_len(names, lengths, n) else {
            return None;
        };
        let Some(sum) = total.checked_add(len) else {
            return None;
        };
        total = sum;
    }
    Some(total)
}
