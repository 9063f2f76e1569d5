//! What stands in the vectors of the section `linking` and of the globals, and such vectors. The
//! trait `Put` is another crate's, as some of these types are, so it can't be theirs.
ghost use Rattle.std.specs.Prelude.{◌≡◌, ℕ, ◌<◌, List, length};
ghost use Rattle.image_emit.specs.Bytes.{section, vector};
ghost use Rattle.image_emit.specs.Put.{IsPut, HasRoom, capped};

use image_emit::put::{plus, put_byte, put_number, u32_size};

/// A value with one spelling.
pub trait Item {
    ghost spelled: { Self → List ℕ };

    /// The length of the spelling.
    fn size(&self) -> u64
        ensures { result ≡ capped (length (spelled self.now)) };

    /// Writes the spelling at a place, and tells where it ends.
    fn put(&self, at: usize, out: &mut [u8]) -> usize
        requires { HasRoom out.old at (spelled self.now) }
        ensures { IsPut out.old at (spelled self.now) result out.new };

    /// No spelling is empty.
    ghost some: { (x : Self) → 0 < length (spelled x) };
}

/// The length of a count and the items.
pub fn vector_size<T: Item>(items: &[T]) -> u64
    ensures { result ≡ capped (length (vector T.spelled items.now)) }
{
    let mut size = u32_size(items.len() as u64);
    for item in items {
        size = plus(size, item.size());
    }
    size
}

/// Writes a count and the items.
pub fn put_vector<T: Item>(items: &[T], at: usize, out: &mut [u8]) -> usize
    requires { HasRoom out.old at (vector T.spelled items.now) }
    ensures { IsPut out.old at (vector T.spelled items.now) result out.new }
{
    let mut at = put_number(items.len() as u32, at, out);
    for item in items {
        at = item.put(at, out);
    }
    at
}

/// The length of a section, which isn't there where there are no items.
pub fn section_size<T: Item>(items: &[T]) -> u64
    ensures { (id : ℕ) → result ≡ capped (length (section id T.spelled items.now)) }
{
    if items.is_empty() {
        return 0;
    }
    let size = vector_size(items);
    plus(1 + u32_size(size), size)
}

/// Writes a section, unless there are no items.
pub fn put_section<T: Item>(id: u8, items: &[T], at: usize, out: &mut [u8]) -> usize
    requires { HasRoom out.old at (section id T.spelled items.now) }
    ensures { IsPut out.old at (section id T.spelled items.now) result out.new }
{
    if items.is_empty() {
        return at;
    }
    let size = vector_size(items);
    let at = put_byte(id, at, out);
    let at = put_number(size as u32, at, out);
    put_vector(items, at, out)
}
