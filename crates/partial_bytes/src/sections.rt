//! What is no part: the sections before the code section, and the section `linking`.
ghost use Rattle.std.specs.Prelude.{◌≡◌, ◌+◌, ◌≤◌, ◌∷◌, ◌++◌, length, codes};
ghost use Rattle.image_emit.specs.Bytes.{sized, vector};
ghost use Rattle.image_emit.specs.Put.{IsPut, HasRoom, capped};
ghost use Rattle.partial_rules.specs.Relocatable.{present};
ghost use Rattle.partial_bytes.specs.Items.{symbol_row};
ghost use Rattle.partial_bytes.specs.Written.{front_of, linking_of, linking_section, code_at};

use crate::item::{put_section, put_vector, section_size, vector_size};
use crate::tree::{SymbolRow, Tree};
use image_emit::fronts::put_section as put_known;
use image_emit::put::{plus, put_byte, put_bytes, put_number, put_sized, sized_size, u32_size};
use image_emit::sizes::section_size as known_size;

/// The length of all before the code section.
pub fn front_size(tree: &Tree<'_>) -> u64
    ensures { result ≡ capped (length (front_of tree.now)) }
{
    let size = plus(8, known_size(tree.types));
    let size = plus(size, known_size(tree.imports));
    let size = plus(size, known_size(tree.functions));
    let size = plus(size, section_size(tree.globals));
    plus(size, known_size(tree.exports))
}

/// Writes it.
pub fn put_front(tree: &Tree<'_>, at: usize, out: &mut [u8]) -> usize
    requires { HasRoom out.old at (front_of tree.now) }
    ensures { IsPut out.old at (front_of tree.now) result out.new }
{
    let at = put_bytes(b"\0asm\x01\0\0\0".as_slice(), at, out);
    let at = put_known(1, tree.types, at, out);
    let at = put_known(2, tree.imports, at, out);
    let at = put_known(3, tree.functions, at, out);
    let at = put_section(6, tree.globals, at, out);
    put_known(7, tree.exports, at, out)
}

fn symbols_size(symbols: &[SymbolRow<'_>]) -> u64
    ensures { result ≡ capped (length (8 ∷ sized (vector symbol_row symbols.now))) }
{
    let size = vector_size(symbols);
    plus(1 + u32_size(size), size)
}

fn put_symbols(symbols: &[SymbolRow<'_>], at: usize, out: &mut [u8]) -> usize
    requires { HasRoom out.old at (8 ∷ sized (vector symbol_row symbols.now)) }
    ensures { IsPut out.old at (8 ∷ sized (vector symbol_row symbols.now)) result out.new }
{
    let size = vector_size(symbols);
    let at = put_byte(8, at, out);
    let at = put_number(size as u32, at, out);
    put_vector(symbols, at, out)
}

/// The length of what stands in the section `linking` behind its name.
fn content_size(tree: &Tree<'_>) -> u64
    ensures { result ≡ capped (length (linking_of tree.now)) }
{
    let size = plus(u32_size(2), symbols_size(tree.symbols));
    let size = plus(size, section_size(tree.infos));
    let size = plus(size, section_size(tree.inits));
    plus(size, section_size(tree.groups))
}

fn put_content(tree: &Tree<'_>, at: usize, out: &mut [u8]) -> usize
    requires { HasRoom out.old at (linking_of tree.now) }
    ensures { IsPut out.old at (linking_of tree.now) result out.new }
{
    let at = put_number(2, at, out);
    let at = put_symbols(tree.symbols, at, out);
    let at = put_section(5, tree.infos, at, out);
    let at = put_section(6, tree.inits, at, out);
    put_section(7, tree.groups, at, out)
}

/// The length of the payload of the section `linking`, its name with it.
fn payload_size(tree: &Tree<'_>) -> u64
    ensures { result ≡ capped (length (sized (codes "linking") ++ linking_of tree.now)) }
{
    plus(sized_size(b"linking".as_slice()), content_size(tree))
}

/// The length of the section `linking`.
pub fn linking_size(tree: &Tree<'_>) -> u64
    ensures { result ≡ capped (length (linking_section tree.now)) }
{
    let size = payload_size(tree);
    plus(1 + u32_size(size), size)
}

/// Writes it.
pub fn put_linking(tree: &Tree<'_>, at: usize, out: &mut [u8]) -> usize
    requires { HasRoom out.old at (linking_section tree.now) }
    ensures { IsPut out.old at (linking_section tree.now) result out.new }
{
    let size = payload_size(tree);
    let at = put_byte(0, at, out);
    let at = put_number(size as u32, at, out);
    let at = put_sized(b"linking".as_slice(), at, out);
    put_content(tree, at, out)
}

/// 1 where a list has items.
pub fn present<T>(items: &[T]) -> u32
    ensures value { result ≡ present items.now }
    ensures few { result ≤ 1 }
{
    if items.is_empty() { 0 } else { 1 }
}

/// The place of the code section among all sections.
pub fn code_at(tree: &Tree<'_>) -> u32
    ensures value { result ≡ code_at tree.now }
    ensures few { result ≤ 5 }
{
    present(tree.types)
        + present(tree.imports)
        + present(tree.functions)
        + present(tree.globals)
        + present(tree.exports)
}
