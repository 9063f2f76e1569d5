//! The data section (Core 5.5.14).
ghost use Rattle.std.specs.Prelude.{◌≡◌, ◌++◌, map, filter, drop, false, slice_index_or, IfOk};
ghost use Rattle.link_layout.specs.Seen.{is_solid_at};
ghost use Rattle.link_layout.specs.Layout.{looked};
ghost use Rattle.link_image.specs.Sections.{block_at, first_of, data_offset};

use crate::made_globals::signed;
use crate::shared::MEMORY_BASE;
use image_emit::{PlacedSource, Source};
use link_layout::{Layout, Placed};
use link_program::part_at;
use made_symbols::Mode;
use std::alloc::Global;
use wasm_types::ConstExpr;
use wl_base::{OutOfMemory, Seq};

// Whether the part of a number is a live segment that isn't zero.
#[tactic(auto, using(link_program::proofs::ReadAt::read))]
fn is_solid(placed: &Placed, number: u32) -> bool
    ensures { result ≡ slice_index_or placed.now.solid number false }
{
    match placed.solid.get(number as usize) {
        Some(solid) => *solid,
        None => false,
    }
}

// The address of the part of a number.
#[tactic(auto, using(link_program::proofs::ReadAt::read))]
fn address_at(placed: &Placed, number: u32) -> u32
    ensures { result ≡ slice_index_or placed.now.addresses number 0 }
{
    match placed.addresses.get(number as usize) {
        Some(address) => *address,
        None => 0,
    }
}

// The segment of a number at its address.
fn block(layout: Layout<'_>, number: u32) -> PlacedSource
    ensures { result ≡ block_at (looked layout.entry) number }
{
    PlacedSource {
        address: address_at(layout.placed, number),
        source: Source::File(part_at(layout.program.tables, number).source),
    }
}

/// The live segments that aren't zero, at their addresses.
pub(crate) fn blocks(
    alloc: Global,
    layout: Layout<'_>,
    live: &[u32],
) -> Result<Seq<PlacedSource>, OutOfMemory>
    ensures { IfOk result (λ blocks. blocks ≡ map (block_at (looked layout.entry)) (filter (is_solid_at (looked layout.entry)) live.now)) }
{
    let mut blocks = Seq::new(alloc);
    for number in live {
        if is_solid(layout.placed, *number) {
            blocks.push(block(layout, *number))?;
        }
    }
    Ok(blocks)
}

// The address of the first block, or 0.
fn first(blocks: &[PlacedSource]) -> u32
    ensures { result ≡ first_of blocks.now }
{
    match blocks {
        [] => 0,
        [block, ..] => block.address,
    }
}

/// Where the data segment begins: at its first block, or at the memory's base, from which the addresses of a shared output count.
pub(crate) fn offset(mode: Mode, blocks: &[PlacedSource]) -> Result<ConstExpr, OutOfMemory>
    ensures { IfOk result (λ offset. offset ≡ data_offset mode (first_of blocks.now)) }
{
    match mode {
        Mode::Plain => {
            let address = signed(u64::from(first(blocks)))?;
            Ok(ConstExpr::I32(address))
        }
        Mode::Shared => Ok(ConstExpr::Get(MEMORY_BASE)),
    }
}
