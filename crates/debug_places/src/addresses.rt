//! Addresses of live data.
ghost use Rattle.std.specs.Prelude.{◌≡◌, slice_index_or, IfOk};
ghost use Rattle.link_program.specs.made_symbols.declared.mode.Mode.TheVariants as modes;
ghost use Rattle.link_program.specs.link_rules.ModeOf.{mode_of};
ghost use Rattle.link_program.specs.link_rules.Values.{made_data};
ghost use Rattle.link_program.specs.Live.{Stage};
ghost use Rattle.link_layout.specs.Layout.{IsLayout, IsLayoutIn};
ghost use Rattle.debug_places.specs.Found.{AreMade};
ghost use Rattle.debug_places.specs.Seen.{seen, address_at, segment_address};

use crate::live::is_marked;
use crate::rows::View;
use link_layout::Layout;
use link_program::{Definition, chunk_number, mode_of};
use linking_section::SymbolKind;
use made_symbols::{Mode, count};
use mark_bits::{Chunk, kinds};
use std::alloc::Global;
use wl_base::{OutOfMemory, Seq};

/// The address of the linker's datum of a number, in a plain output.
fn made_address(layout: Layout<'_>, number: u32) -> u64
    ghost s: { Stage }
    requires { IsLayoutIn modes.Plain s.program s.parts s.exports layout }
    ensures { result ≡ slice_index_or (made_data layout.entry.placed.now.places) number 0 }
{
    layout.address(Definition {
        input: 0,
        place: number,
        kind: SymbolKind::Datum,
        index: number,
        offset: 0,
    })
}

/// The addresses of the linker's own data in a plain output, by their numbers.
fn plain_addresses(alloc: Global, layout: Layout<'_>) -> Result<Seq<u64>, OutOfMemory>
    ghost s: { Stage }
    requires { IsLayoutIn modes.Plain s.program s.parts s.exports layout }
    ensures { IfOk result (λ made. AreMade modes.Plain made layout.entry.placed.now.places) }
{
    let mut made = Seq::new(alloc);
    for number in 0..count(Mode::Plain) {
        made.push(made_address(layout, number))?;
    }
    Ok(made)
}

/// The same in either output. The linker's one datum of a shared output stands at 0, where no address
/// is told.
pub(crate) fn made_addresses(alloc: Global, layout: Layout<'_>) -> Result<Seq<u64>, OutOfMemory>
    ghost s: { Stage }
    requires { IsLayout s.program s.parts s.exports layout }
    ensures { IfOk result (λ made. AreMade (mode_of s.program.plan) made layout.entry.placed.now.places) }
{
    match mode_of(layout.program.plan) {
        Mode::Plain => plain_addresses(alloc, layout),
        Mode::Shared => Ok(Seq::new(alloc)),
    }
}

/// The number at a place, or 0.
fn address_or_none(addresses: &[u32], at: u32) -> u32
    ensures { result ≡ slice_index_or addresses.now at 0 }
{
    match addresses.get(at as usize) {
        Some(address) => *address,
        None => 0,
    }
}

fn made_or_none(made: &[u64], at: u32) -> u64
    ensures { result ≡ slice_index_or made.now at 0 }
{
    match made.get(at as usize) {
        Some(address) => *address,
        None => 0,
    }
}

/// The address of a datum so far behind the first byte of the segment that is the part of a number,
/// where that is live.
fn segment_address(view: View<'_>, offset: u32, part: Option<u32>) -> Option<u64>
    ensures { result ≡ segment_address (seen view.entry) offset part }
{
    let Some(number) = part else {
        return None;
    };
    if !is_marked(view.live, number) {
        return None;
    }
    let begin = address_or_none(view.layout.placed.addresses.as_slice(), number);
    Some(u64::from(begin) + u64::from(offset))
}

/// The address of a datum, where it is one of the linker's or its segment is live.
pub(crate) fn address_at(view: View<'_>, definition: Definition) -> Option<u64>
    ensures { result ≡ address_at (seen view.entry) definition }
{
    if definition.input == 0 {
        return Some(made_or_none(view.made, definition.place));
    }
    let chunk = Chunk {
        input: definition.input,
        kind: kinds::SEGMENT,
        index: definition.index,
    };
    let part = chunk_number(&view.layout.program.tables.chunks, chunk);
    segment_address(view, definition.offset, part)
}
