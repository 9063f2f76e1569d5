//! Numbers of chunks, and bits that two seats set.
ghost use Rattle.std.specs.Prelude.{◌≡◌, ◌<◌};
ghost use Rattle.mark_bits.specs.Seats.{IsSeatOf};

use mark_bits::{Chunk, ChunkTable, MarkBits, MarkSeat, kinds};
use std::test::Fail;

const MAIN: Chunk = Chunk {
    input: 1,
    kind: kinds::FUNCTION,
    index: 7,
};

const DATUM: Chunk = Chunk {
    input: 1,
    kind: kinds::SEGMENT,
    index: 7,
};

// Gives the chunk the next number, where it has none.
fn add(table: &mut ChunkTable, chunk: Chunk) -> Option<u32> {
    if table.count() < 9 && table.find(chunk).is_none() {
        table.add(chunk).ok()
    } else {
        None
    }
}

fn chunk_of(table: &ChunkTable, number: u32) -> Option<Chunk> {
    if number < table.count() {
        Some(table.chunk(number))
    } else {
        None
    }
}

fn are_numbered(table: &mut ChunkTable) -> bool {
    table.find(MAIN).is_none()
        && add(table, MAIN) == Some(0)
        && table.find(DATUM).is_none()
        && add(table, DATUM) == Some(1)
        && table.count() == 2
        && table.find(DATUM) == Some(1)
        && chunk_of(table, 1) == Some(DATUM)
}

#[test]
fn chunks_have_numbers_in_the_order_in_which_they_came(rt: HostRuntime) {
    let mut table = ChunkTable::new(rt.alloc());
    let holds = are_numbered(&mut table);
    assert!(rt; holds);
}

// Marks a chunk, and tells whether its bit was clear.
fn marks(bits: &MarkBits, seat: &mut MarkSeat, chunk: u32) -> bool
    requires own { IsSeatOf bits.now seat.old }
    requires chunk { chunk < bits.now.chunks }
    ensures own { IsSeatOf bits.now seat.new }
    ensures width { seat.new.party.width ≡ seat.old.party.width }
{
    bits.mark(seat, chunk)
}

#[test]
fn a_chunk_is_marked_first_by_one_seat(rt: HostRuntime) -> Result<(), Fail> {
    let (bits, mut seat) = MarkBits::new(rt.alloc(), 65, 2)?;
    let mut other = bits.split(&mut seat, 1);
    assert!(rt; marks(&bits, &mut seat, 3));
    assert!(rt; !marks(&bits, &mut other, 3));
    assert!(rt; marks(&bits, &mut other, 64));
    assert!(rt; !marks(&bits, &mut seat, 64));
    bits.join(&mut seat, other);
    let set = bits.finish(seat);
    assert_eq!(rt; set.chunks, 65);
    assert_eq!(rt; set.words.as_slice(), [8, 1].as_slice());
    Ok(())
}

#[test]
fn no_chunks_have_one_word(rt: HostRuntime) -> Result<(), Fail> {
    let (bits, seat) = MarkBits::new(rt.alloc(), 0, 1)?;
    let set = bits.finish(seat);
    assert_eq!(rt; set.words.as_slice(), [0].as_slice());
    Ok(())
}

#[test]
fn a_set_has_what_was_marked(rt: HostRuntime) -> Result<(), Fail> {
    let (bits, mut seat) = MarkBits::new(rt.alloc(), 3, 64)?;
    assert!(rt; marks(&bits, &mut seat, 2));
    let set = bits.finish(seat);
    let chunks = set.chunks;
    assert_eq!(rt; chunks, 3);
    assert!(rt; set.has(2) && !set.has(0));
    Ok(())
}
