//! What stands before the first source.
ghost use Rattle.std.specs.Prelude.{◌≡◌, ◌≤◌, ◌<◌, ◌^◌, length, map, flat_map};
ghost use Rattle.image_emit.specs.Bytes.{custom_section, section, sized, source_bytes, tree_of};
ghost use Rattle.image_emit.specs.Pieces.{sections, code_head, front};
ghost use Rattle.image_emit.specs.Put.{IsPut, HasRoom};
ghost use Rattle.image_emit.specs.Sizes.{bodies_len};

use crate::put::{
    Put, put_byte, put_bytes, put_number, put_sized, put_vector, u32_size, vector_size,
};
use crate::sizes::bodies_size;
use crate::{Image, Source};
use wl_base::Seq;

/// Writes all up to the first source, whose bytes the files hold.
pub fn put_front(image: &Image, files: &[Seq<u8>], out: &mut [u8]) -> usize
    requires bodies { length (flat_map sized (map (source_bytes files.now) image.now.bodies)) ≡ bodies_len image.now.bodies }
    requires short { bodies_len image.now.bodies < 2 ^ 31 }
    requires room { HasRoom out.old 0 (front (tree_of files.now image.now)) }
    ensures { IsPut out.old 0 (front (tree_of files.now image.now)) result out.new }
{
    let at = put_sections(image, files, out);
    put_code_head(files, image.bodies.as_slice(), at, out)
}

// Writes the sections before the code section.
fn put_sections(image: &Image, files: &[Seq<u8>], out: &mut [u8]) -> usize
    requires { HasRoom out.old 0 (sections (tree_of files.now image.now)) }
    ensures { IsPut out.old 0 (sections (tree_of files.now image.now)) result out.new }
{
    let at = put_bytes(b"\0asm\x01\0\0\0".as_slice(), 0, out);
    let at = put_custom(&image.custom, at, out);
    let at = put_section(1, image.types.as_slice(), at, out);
    let at = put_section(2, image.imports.as_slice(), at, out);
    let at = put_section(3, image.functions.as_slice(), at, out);
    let at = put_section(4, image.tables.as_slice(), at, out);
    let at = put_section(5, image.memories.as_slice(), at, out);
    let at = put_section(6, image.globals.as_slice(), at, out);
    let at = put_section(7, image.exports.as_slice(), at, out);
    put_section(9, image.elements.as_slice(), at, out)
}

// Writes a custom section, where there is one.
pub fn put_custom(payload: &Option<Seq<u8>>, at: usize, out: &mut [u8]) -> usize
    requires { HasRoom out.old at (custom_section payload.now) }
    ensures { IsPut out.old at (custom_section payload.now) result out.new }
{
    match payload {
        None => at,
        Some(payload) => {
            let at = put_byte(0, at, out);
            put_sized(payload.as_slice(), at, out)
        }
    }
}

// Writes a section, unless it has no entries.
pub fn put_section<T: Put>(id: u8, items: &[T], at: usize, out: &mut [u8]) -> usize
    requires { HasRoom out.old at (section id T.spelled items.now) }
    ensures { IsPut out.old at (section id T.spelled items.now) result out.new }
{
    if items.is_empty() {
        return at;
    }
    let size = vector_size(items);
    let at = put_byte(id, at, out);
    let at = put_number(size as u32, at, out);
    put_vector(items, at, out)
}

// Writes the head of the code section, unless there are no bodies.
#[tactic(auto, using(crate::proofs::Lengths::bodies_count))]
fn put_code_head(files: &[Seq<u8>], bodies: &[Source], at: usize, out: &mut [u8]) -> usize
    requires bodies { length (flat_map sized (map (source_bytes files.now) bodies.now)) ≡ bodies_len bodies.now }
    requires room { HasRoom out.old at (code_head (map (source_bytes files.now) bodies.now)) }
    requires short { bodies_len bodies.now < 2 ^ 31 }
    ensures { IsPut out.old at (code_head (map (source_bytes files.now) bodies.now)) result out.new }
{
    if bodies.is_empty() {
        return at;
    }
    let count = bodies.len();
    let size = u32_size(count as u64) + bodies_size(bodies);
    let at = put_byte(10, at, out);
    let at = put_number(size as u32, at, out);
    put_number(count as u32, at, out)
}
