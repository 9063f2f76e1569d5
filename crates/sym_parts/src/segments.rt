//! What the memory holds at first.
ghost use Rattle.std.specs.Prelude.{◌≡◌, ◌==◌, ◌++◌, true, false, Some, map, filter, slice_index_or, IfOk, OnOk};
ghost use Rattle.std.specs.List.{list_all};
ghost use Rattle.link_program.specs.reloc_apply.Windows.{over, little};
ghost use Rattle.sym_parts.specs.Sought.{known, named_place};
ghost use Rattle.sym_parts.specs.Data.{is_word, word_named, words_on, segment_seen, is_zero, is_so, segment_numbers};

use crate::bytes::bytes_at;
use crate::numbers::number_named;
use crate::sought::Sought;
use link_program::{Named, Tables, part_at, row_at};
use mark_bits::kinds as chunk_kinds;
use reloc_section::kinds;
use run_machines::SymSegment;
use std::alloc::Global;
use wl_base::{OutOfMemory, Seq};

/// Whether an item stands for a word of data.
fn is_word(named: Named) -> bool
    ensures { result ≡ is_word named }
{
    match named {
        Named::Symbol {
            kind,
            place: _,
            addend: _,
            symbol: _,
        } => kind == kinds::TABLE_INDEX_I32 || kind == kinds::MEMORY_ADDR_I32,
        Named::Type {
            place: _,
            number: _,
        } => false,
    }
}

/// The word for which an item stands. No other item stands in data; one is answered as want of memory.
fn word_named(k: Sought<'_>, named: Named) -> Result<u32, OutOfMemory>
    ensures { IfOk result (λ n. word_named (known k.entry) named ≡ Some n) }
{
    if !is_word(named) {
        return Err(OutOfMemory);
    }
    let number = number_named(k, named)?;
    Ok(number)
}

/// Writes a word at a place. One that doesn't lie in the bytes is answered as want of memory.
fn put_word(bytes: &mut [u8], place: u32, word: u32) -> Result<(), OutOfMemory>
    ensures { OnOk result (bytes.new ≡ over place (little word) bytes.old) }
{
    let place = place as usize;
    if place > bytes.len() || bytes.len() - place < 4 {
        return Err(OutOfMemory);
    }
    bytes[place..place + 4].copy_from_slice(word.to_le_bytes().as_slice());
    Ok(())
}

/// Writes the words for which items stand.
fn put_words(bytes: &mut [u8], k: Sought<'_>, row: &[Named]) -> Result<(), OutOfMemory>
    ensures { OnOk result (words_on (known k.entry) row.now bytes.old ≡ Some bytes.new) }
{
    for named in row {
        let word = word_named(k, *named)?;
        put_word(bytes, place_of(*named), word)?;
    }
    Ok(())
}

/// Where an item stands in its part.
fn place_of(named: Named) -> u32
    ensures { result ≡ named_place named }
{
    match named {
        Named::Symbol {
            kind: _,
            place,
            addend: _,
            symbol: _,
        } => place,
        Named::Type { place, number: _ } => place,
    }
}

/// The address at a place, or 0.
#[tactic(auto, using(link_program::proofs::ReadAt::read))]
fn address_at(addresses: &[u32], at: u32) -> u32
    ensures { result ≡ slice_index_or addresses.now at 0 }
{
    match addresses.get(at as usize) {
        Some(address) => *address,
        None => 0,
    }
}

/// The segment of a number.
fn segment(
    alloc: Global,
    k: Sought<'_>,
    files: &[Seq<u8>],
    addresses: &[u32],
    number: u32,
) -> Result<SymSegment, OutOfMemory>
    ensures { IfOk result (λ s. segment_seen (known k.entry) files.now addresses.now number ≡ Some s) }
{
    let source = part_at(k.tables, number).source;
    let mut bytes = Seq::from_slice(alloc, bytes_at(files, source))?.into_vec();
    put_words(bytes.as_mut_slice(), k, row_at(k.tables, number))?;
    Ok(SymSegment {
        address: address_at(addresses, number),
        bytes: Seq::from_vec(bytes),
    })
}

/// Whether all bytes are 0.
fn all_zero(bytes: &[u8]) -> bool
    ensures { result ≡ list_all (λ b. b == 0) bytes.now }
{
    bytes.iter().all(|byte| *byte == 0)
}

/// Whether all bytes of the segment of a number are 0, and no window lies in it.
fn is_zero(tables: &Tables, files: &[Seq<u8>], number: u32) -> bool
    ensures { result ≡ is_zero tables.now files.now number }
{
    row_at(tables, number).is_empty() && all_zero(bytes_at(files, part_at(tables, number).source))
}

/// Whether the segment of a number is zero, or whether it isn't.
fn is_so(tables: &Tables, files: &[Seq<u8>], zero: bool, number: u32) -> bool
    ensures { result ≡ is_so tables.now files.now zero number }
{
    if zero {
        is_zero(tables, files, number)
    } else {
        !is_zero(tables, files, number)
    }
}

/// The numbers of the live segments.
fn live_segments(alloc: Global, tables: &Tables, live: &[u32]) -> Result<Vec<u32>, OutOfMemory>
    ensures { IfOk result (λ ns. ns.items ≡ segment_numbers tables.now live.now) }
{
    let mut numbers = Vec::new(alloc);
    for number in live {
        if part_at(tables, *number).chunk.kind == chunk_kinds::SEGMENT {
            numbers.push(*number)?;
        }
    }
    Ok(numbers)
}

/// Adds those of the segments that are zero, or those that aren't.
fn add_some(
    numbers: &mut Vec<u32>,
    tables: &Tables,
    files: &[Seq<u8>],
    zero: bool,
    segments: &[u32],
) -> Result<(), OutOfMemory>
    ensures { OnOk result (numbers.new.items ≡ numbers.old.items ++ filter (is_so tables.now files.now zero) segments.now) }
{
    for number in segments {
        if is_so(tables, files, zero, *number) {
            numbers.push(*number)?;
        }
    }
    Ok(())
}

/// The numbers of the live segments: those that aren't zero, and behind them the others.
pub fn numbers_in_order(
    alloc: Global,
    tables: &Tables,
    files: &[Seq<u8>],
    live: &[u32],
) -> Result<Vec<u32>, OutOfMemory>
    ensures { IfOk result (λ ns. ns.items ≡ filter (is_so tables.now files.now false) (segment_numbers tables.now live.now)
        ++ filter (is_so tables.now files.now true) (segment_numbers tables.now live.now)) }
{
    let segments = live_segments(alloc, tables, live)?;
    let mut numbers = Vec::with_capacity(alloc, segments.len())?;
    add_some(&mut numbers, tables, files, false, &segments)?;
    add_some(&mut numbers, tables, files, true, &segments)?;
    Ok(numbers)
}

/// The segments of these numbers.
pub fn segments_of(
    alloc: Global,
    k: Sought<'_>,
    files: &[Seq<u8>],
    addresses: &[u32],
    numbers: &[u32],
) -> Result<Seq<SymSegment>, OutOfMemory>
    ensures { IfOk result (λ ss. map (segment_seen (known k.entry) files.now addresses.now) numbers.now ≡ map Some ss) }
{
    let mut segments = Seq::new(alloc);
    for number in numbers {
        let segment = segment(alloc, k, files, addresses, *number)?;
        segments.push(segment)?;
    }
    Ok(segments)
}
