//! What is known of segments, by the numbers of parts.
ghost use Rattle.std.specs.Prelude.{◌≡◌, false, not, map, replicate, slice_index_or, slice_set, IfOk};
ghost use Rattle.link_layout.specs.Segments.{set_each};

use memory_layout::SegmentShape;
use std::alloc::Global;
use wl_base::{OutOfMemory, Seq};

/// Of so many parts the addresses: those of these numbers have these addresses, and all others the first one.
pub(crate) fn address_column(
    alloc: Global,
    numbers: &[u32],
    addresses: &[u32],
    count: usize,
) -> Result<Seq<u32>, OutOfMemory>
    ensures { IfOk result (λ column. column ≡ set_each numbers.now addresses.now (replicate count (slice_index_or addresses.now 0 0))) }
{
    let first = match addresses.first() {
        Some(address) => *address,
        None => 0,
    };
    let mut column = vec![in alloc; first; count]?;
    set_addresses(&mut column, numbers, addresses);
    Ok(Seq::from_vec(column))
}

/// Puts addresses at their places.
fn set_addresses(column: &mut [u32], numbers: &[u32], addresses: &[u32])
    ensures { column.new ≡ set_each numbers.now addresses.now column.old }
{
    for (i, number) in numbers.iter().enumerate() {
        if let Some(address) = addresses.get(i) {
            put(column, *number, *address);
        }
    }
}

/// Puts a value at a place, where there is one.
fn put<T: Copy>(column: &mut [T], at: u32, value: T)
    ensures { column.new ≡ slice_set column.old at value }
{
    let at = at as usize;
    if at < column.len() {
        column[at] = value;
    }
}

/// Of so many parts whether they are segments of these numbers and shapes that aren't zero.
pub(crate) fn solid_column(
    alloc: Global,
    numbers: &[u32],
    shapes: &[SegmentShape],
    count: usize,
) -> Result<Seq<bool>, OutOfMemory>
    ensures { IfOk result (λ column. column ≡ set_each numbers.now (map (λ s. not s.zero) shapes.now) (replicate count false)) }
{
    let mut column = vec![in alloc; false; count]?;
    set_solid(&mut column, numbers, shapes);
    Ok(Seq::from_vec(column))
}

/// Puts at their places which of the shapes aren't zero.
fn set_solid(column: &mut [bool], numbers: &[u32], shapes: &[SegmentShape])
    ensures { column.new ≡ set_each numbers.now (map (λ s. not s.zero) shapes.now) column.old }
{
    for (i, number) in numbers.iter().enumerate() {
        if let Some(shape) = shapes.get(i) {
            put(column, *number, !shape.zero);
        }
    }
}
