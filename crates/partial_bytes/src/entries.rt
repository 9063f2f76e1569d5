//! Relocations, by their places in a section: how long their entries are, and how they are written
//! (Linking.md, 'Relocation Sections').
ghost use Rattle.std.specs.Prelude.{◌≡◌, ◌+◌, ◌%◌, ◌<◌, ◌≤◌, ◌^◌, [], true, length, take, slice_index_or, if◌then◌else◌};
ghost use Rattle.std.specs.List.{list_all};
ghost use Rattle.leb_codec.specs.Shortest.{s32};
ghost use Rattle.image_emit.specs.Put.{IsPut, HasRoom, capped};
ghost use Rattle.reloc_section.specs.Kinds.{has_addend};
ghost use Rattle.partial_rules.specs.Relocatable.{reloc, later};
ghost use Rattle.leb_codec.specs.Shortest.{u32 as shortest_u32};
ghost use Rattle.partial_bytes.specs.Relocs.{reloc_by, relocs_of};
ghost use Rattle.partial_bytes.specs.Written.{part_entries};
ghost use Rattle.partial_bytes.specs.Measured.{entries_len};
ghost use Rattle.partial_bytes.specs.Pieces.{entry_fits};

use crate::tree::{Numbers, Part};
use image_emit::put::{plus, put_byte, put_bytes, u32_size};
use leb_codec::write_s32;
use link_program::Named;
use reloc_section::{Reloc, kinds};

/// The number at a place, or 0.
fn number_at(numbers: &[u32], place: u32) -> u32
    ensures { result ≡ slice_index_or numbers.now place 0 }
{
    match numbers.get(place as usize) {
        Some(number) => *number,
        None => 0,
    }
}

/// The relocation of a window, by its place in its part.
pub fn reloc_of(numbers: &Numbers<'_>, named: Named) -> Reloc
    ensures { result ≡ reloc_by numbers.now named }
{
    match named {
        Named::Symbol {
            kind,
            place,
            addend,
            symbol,
        } => Reloc {
            kind,
            offset: place,
            index: number_at(numbers.symbols, symbol),
            addend,
        },
        Named::Type { place, number } => Reloc {
            kind: kinds::TYPE_INDEX_LEB,
            offset: place,
            index: number_at(numbers.types, number),
            addend: 0,
        },
    }
}

/// The length of the shortest spelling of a number with a sign. Most addends are small.
fn signed_size(n: i32) -> u64
    ensures size { result ≡ length (s32 n) }
    ensures few { result ≤ 5 }
{
    if n >= 0 && n < 64 {
        return 1;
    }
    let mut bytes = [0u8; 10];
    write_s32(n, &mut bytes) as u64
}

fn addend_size(x: &Reloc) -> u64
    ensures size { result ≡ length (if has_addend x.now.kind then s32 x.now.addend else []) }
    ensures few { result ≤ 5 }
{
    if !kinds::has_addend(x.kind) {
        return 0;
    }
    signed_size(x.addend)
}

/// The length of an entry, so much later.
fn entry_size(from: u64, x: &Reloc) -> u64
    ensures { result ≡ length (reloc (later from x.now)) }
{
    let offset = u32_size(plus(from, u64::from(x.offset)));
    let index = u32_size(u64::from(x.index));
    1 + offset + index + addend_size(x)
}

/// The length of the entries of a part, so much later.
pub fn entries_size(from: u64, part: &Part<'_>) -> u64
    ensures { result ≡ entries_len from part.now }
{
    let mut size = 0;
    for x in part.named {
        size = plus(size, entry_size(from, &reloc_of(part.numbers, *x)));
    }
    size
}

/// Copies ten bytes, of which the first ones count: those behind them are written later. A copy of a known length is no call.
fn put_ten(bytes: &[u8; 10], len: usize, at: usize, out: &mut [u8]) -> usize
    requires few { len ≤ 10 }
    requires room { HasRoom out.old at bytes.now }
    ensures { IsPut out.old at (take len bytes.now) result out.new }
{
    put_bytes(bytes.as_slice(), at, out);
    at + len
}

/// Writes the first ones of ten bytes.
fn put_first(bytes: &[u8; 10], len: usize, at: usize, out: &mut [u8]) -> usize
    requires few { len ≤ 10 }
    requires room { HasRoom out.old at (take len bytes.now) }
    ensures { IsPut out.old at (take len bytes.now) result out.new }
{
    if out.len() - at < 10 {
        return put_bytes(&bytes[..len], at, out);
    }
    put_ten(bytes, len, at, out)
}

/// Seven bits of a number that has more.
fn high_byte(bits: u32) -> u8
    ensures { result ≡ 128 + bits % 128 }
{
    (bits & 0x7f) as u8 | 0x80
}

/// Writes a number in the shortest form, byte by byte: a number of two or three bytes isn't worth a copy.
fn put_short(n: u32, at: usize, out: &mut [u8]) -> usize
    requires { HasRoom out.old at (shortest_u32 n) }
    ensures { IsPut out.old at (shortest_u32 n) result out.new }
{
    let mut rest = n;
    let mut len = 0;
    while rest >= 0x80 {
        out[at + len] = high_byte(rest);
        rest >>= 7;
        len += 1;
    }
    out[at + len] = rest as u8;
    at + len + 1
}

/// Writes a number with a sign in the shortest form. Most addends are small.
fn put_signed(n: i32, at: usize, out: &mut [u8]) -> usize
    requires { HasRoom out.old at (s32 n) }
    ensures { IsPut out.old at (s32 n) result out.new }
{
    if n >= 0 && n < 64 {
        return put_byte(n as u8, at, out);
    }
    let mut bytes = [0u8; 10];
    let len = write_s32(n, &mut bytes);
    put_first(&bytes, len, at, out)
}

fn put_addend(x: &Reloc, at: usize, out: &mut [u8]) -> usize
    requires { HasRoom out.old at (if has_addend x.now.kind then s32 x.now.addend else []) }
    ensures { IsPut out.old at (if has_addend x.now.kind then s32 x.now.addend else []) result out.new }
{
    if !kinds::has_addend(x.kind) {
        return at;
    }
    put_signed(x.addend, at, out)
}

fn put_entry(from: u32, x: &Reloc, at: usize, out: &mut [u8]) -> usize
    requires low { from + x.now.offset < 2 ^ 32 }
    requires room { HasRoom out.old at (reloc (later from x.now)) }
    ensures { IsPut out.old at (reloc (later from x.now)) result out.new }
{
    let at = put_byte(x.kind, at, out);
    let at = put_short(from + x.offset, at, out);
    let at = put_short(x.index, at, out);
    put_addend(x, at, out)
}

/// Writes the entries of a part, so much later.
pub fn put_entries(from: u32, part: &Part<'_>, at: usize, out: &mut [u8]) -> usize
    requires low { list_all (entry_fits from) (relocs_of part.now) ≡ true }
    requires room { HasRoom out.old at (part_entries from part.now) }
    ensures { IsPut out.old at (part_entries from part.now) result out.new }
{
    let mut at = at;
    for x in part.named {
        at = put_entry(from, &reloc_of(part.numbers, *x), at, out);
    }
    at
}
