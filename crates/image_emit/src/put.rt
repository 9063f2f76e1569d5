//! What can be written into a slice, from left to right.
ghost use Rattle.std.specs.Prelude.{◌≡◌, ◌+◌, ◌<◌, ◌≤◌, ◌^◌, ◌∷◌, [], List, ℕ, length};
ghost use Rattle.wasm_module.specs.wasm_instr.leb_codec.Shortest.{u32 as shortest_u32};
ghost use Rattle.image_emit.specs.Bytes.{vector, sized};
ghost use Rattle.image_emit.specs.Put.{IsPut, HasRoom, capped};

use leb_codec::write_u32;

/// A value with one spelling.
pub trait Put {
    ghost spelled: { Self → List ℕ };

    /// The length of the spelling.
    fn size(&self) -> u64
        ensures { result ≡ capped (length (spelled self.now)) };

    /// Writes the spelling at a place, and tells where it ends.
    fn put(&self, at: usize, out: &mut [u8]) -> usize
        requires { HasRoom out.old at (spelled self.now) }
        ensures { IsPut out.old at (spelled self.now) result out.new };

    /// No spelling is empty.
    ghost some: { (x : Self) → 0 < length (spelled x) };
}

/// The sum, as far as 64 bits hold it.
pub fn plus(a: u64, b: u64) -> u64
    ensures { result ≡ capped (a + b) }
{
    a.saturating_add(b)
}

/// The length of the shortest spelling.
#[tactic(auto, using(crate::proofs::Room::u32_is, crate::proofs::Room::u32_far))]
pub fn u32_size(n: u64) -> u64
    ensures size { result ≡ length (shortest_u32 n) }
    ensures far { (x : ℕ) → n ≡ capped x → result ≡ length (shortest_u32 x) }
    ensures few { result ≤ 5 }
{
    if n < 128 {
        1
    } else if n / 128 < 128 {
        2
    } else if n / 128 / 128 < 128 {
        3
    } else if n / 128 / 128 / 128 < 128 {
        4
    } else {
        5
    }
}

pub fn put_byte(byte: u8, at: usize, out: &mut [u8]) -> usize
    requires { HasRoom out.old at (byte ∷ []) }
    ensures { IsPut out.old at (byte ∷ []) result out.new }
{
    out[at] = byte;
    at + 1
}

pub fn put_bytes(bytes: &[u8], at: usize, out: &mut [u8]) -> usize
    requires { HasRoom out.old at bytes.now }
    ensures { IsPut out.old at bytes.now result out.new }
{
    let end = at + bytes.len();
    out[at..end].copy_from_slice(bytes);
    end
}

/// Writes a number in the shortest form.
pub fn put_number(n: u32, at: usize, out: &mut [u8]) -> usize
    requires { HasRoom out.old at (shortest_u32 n) }
    ensures { IsPut out.old at (shortest_u32 n) result out.new }
{
    let mut bytes = [0u8; 10];
    let len = write_u32(n, &mut bytes);
    put_bytes(&bytes[..len], at, out)
}

/// Writes a length and the bytes.
pub fn put_sized(bytes: &[u8], at: usize, out: &mut [u8]) -> usize
    requires { HasRoom out.old at (sized bytes.now) }
    ensures { IsPut out.old at (sized bytes.now) result out.new }
{
    let at = put_number(bytes.len() as u32, at, out);
    put_bytes(bytes, at, out)
}

pub fn sized_size(bytes: &[u8]) -> u64
    ensures { result ≡ capped (length (sized bytes.now)) }
{
    plus(u32_size(bytes.len() as u64), bytes.len() as u64)
}

/// Writes a count and the items.
pub fn put_vector<T: Put>(items: &[T], at: usize, out: &mut [u8]) -> usize
    requires { HasRoom out.old at (vector T.spelled items.now) }
    ensures { IsPut out.old at (vector T.spelled items.now) result out.new }
{
    let mut at = put_number(items.len() as u32, at, out);
    for item in items {
        at = item.put(at, out);
    }
    at
}

pub fn vector_size<T: Put>(items: &[T]) -> u64
    ensures { result ≡ capped (length (vector T.spelled items.now)) }
{
    let mut size = u32_size(items.len() as u64);
    for item in items {
        size = plus(size, item.size());
    }
    size
}
