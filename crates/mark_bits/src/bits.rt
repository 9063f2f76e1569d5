//! The bits, and the seats that set them.
ghost use Rattle.std.specs.Prelude.{◌≡◌, ℕ, ◌+◌, ◌<◌, ◌≤◌, length, slice_index, IfOk, MatchBool};
ghost use Rattle.std.specs.Mem.Slots.{slots_items, slots_len, IsFull};
ghost use Rattle.mark_bits.specs.Words.{times, Among, bit_of};
ghost use Rattle.mark_bits.specs.Marks.{starter, marked_first, marked_again, kept_part, joined};
ghost use Rattle.mark_bits.specs.Seats.{IsSeatOf};

use crate::MarkSet;
use crate::party::Party;
use crate::rule::{Bits, Both, Halve, Look, Mark, Number, Terms};
use atomic_table::{Closed, Seat, Table};
use std::alloc::Global;
use std::marker::{Brand, Model};
use wl_base::{OutOfMemory, Seq};

/// The bits of chunks, which seats set side by side, also from several threads. At every moment the bits
/// and the seats are what some list of events made of clear bits and one seat. No call waits for another.
#[derive(Drop)]
pub struct MarkBits {
    chunks: u32,
    words: Vec<u64>,
    table: Table<u64, Party, Terms, Bits, Global>,
}

impl Model for MarkBits {
    ghost use Rattle.std.specs.Prelude.{◌≡◌, length};
    ghost use Rattle.mark_bits.specs.Words.{word_count};
    ghost use Rattle.mark_bits.specs.Seats.{BitsView};

    ghost Value = { BitsView };

    ghost view = { λ b. record { marks = b.table.shared.table_id; width = b.table.shared.key.width; chunks = b.chunks } };

    ghost invariant = { λ b. (b.table.shared.key.chunks ≡ b.chunks) × (b.table.shared.table_id.words ≡ word_count b.chunks) × (b.table.shared.table_id.slots ≡ 0) × (length b.words.items ≡ word_count b.chunks) };
}

/// The right to set bits, of one thread at a time. It takes no memory. Contracts see what it has marked.
#[derive(Drop)]
pub struct MarkSeat {
    seat: Seat<u64, Party>,
}

impl Model for MarkSeat {
    ghost use Rattle.std.specs.Prelude.{◌≡◌, ℕ, ◌<◌, []};
    ghost use Rattle.mark_bits.specs.Seats.{SeatView};

    ghost Value = { SeatView };

    ghost view = { λ s. record { marks = s.seat.table_id; party = s.seat.me.0 } };

    ghost invariant = { λ s. (s.seat.me.1 ≡ []) × (0 < s.seat.me.0.width) };
}

impl MarkBits {
    /// Clear bits for this many chunks, and a seat that can be split into `width`. It takes all memory that
    /// the later calls need.
    pub fn new(alloc: Global, chunks: u32, width: u32) -> Result<(MarkBits, MarkSeat), OutOfMemory>
        requires width { (1 ≤ width) × (width ≤ 64) }
        ensures marks { IfOk result (λ r. (r.0.chunks ≡ chunks) × (r.0.width ≡ width)) }
        ensures seat { IfOk result (λ r. IsSeatOf r.0 r.1 × (r.1.party ≡ starter width)) }
    {
        let count = if chunks == 0 {
            1
        } else {
            (chunks - 1) / 64 + 1
        };
        let words = vec![in alloc; 0u64; count as usize]?;
        let terms = Terms { width, chunks };
        let (table, seat) = Table::of_words(alloc, words.as_slice(), &terms)?;
        let bits = MarkBits {
            chunks,
            words,
            table,
        };
        Ok((bits, MarkSeat { seat }))
    }

    /// Marks a chunk, by one atomic step. True where its bit was clear, which one call alone finds.
    pub fn mark(&self, seat: &mut MarkSeat, chunk: u32) -> bool
        requires own { IsSeatOf self.now seat.old }
        requires chunk { chunk < self.now.chunks }
        ensures own { IsSeatOf self.now seat.new }
        ensures marked { MatchBool result (seat.new.party ≡ marked_first seat.old.party chunk) (seat.new.party ≡ marked_again seat.old.party chunk) }
    {
        self.mark_at::<Brand>(seat, chunk)
    }

    // C is the chunk, for the rule.
    fn mark_at<C: Number>(&self, seat: &mut MarkSeat, chunk: u32) -> bool
        requires own { IsSeatOf self.now seat.old }
        requires chunk { chunk < self.now.chunks }
        requires picked { C.number ≡ chunk }
        ensures own { IsSeatOf self.now seat.new }
        ensures marked { MatchBool result (seat.new.party ≡ marked_first seat.old.party chunk) (seat.new.party ≡ marked_again seat.old.party chunk) }
    {
        let bit = 1u64 << (chunk % 64);
        let found = self
            .table
            .shared
            .fetch_or::<Mark<C>>(&mut seat.seat, (chunk / 64) as usize, bit);
        found & bit == 0
    }

    /// Cuts `width` off the seat, for a seat that has marked nothing.
    pub fn split(&self, seat: &mut MarkSeat, width: u32) -> MarkSeat
        requires own { IsSeatOf self.now seat.old }
        requires width { (1 ≤ width) × (width < seat.old.party.width) }
        ensures own { IsSeatOf self.now seat.new × IsSeatOf self.now result }
        ensures parts { (seat.new.party ≡ kept_part width seat.old.party) × (result.party ≡ starter width) }
    {
        self.split_by::<Brand>(seat, width)
    }

    // W is the width, for the rule.
    fn split_by<W: Number>(&self, seat: &mut MarkSeat, width: u32) -> MarkSeat
        requires own { IsSeatOf self.now seat.old }
        requires part { W.number ≡ width }
        requires width { (1 ≤ width) × (width < seat.old.party.width) }
        ensures own { IsSeatOf self.now seat.new × IsSeatOf self.now result }
        ensures parts { (seat.new.party ≡ kept_part width seat.old.party) × (result.party ≡ starter width) }
    {
        let _width = width;
        MarkSeat {
            seat: self.table.shared.split_seat::<Halve<W>>(&mut seat.seat),
        }
    }

    /// Takes in the other seat: its width, and what it marked.
    pub fn join(&self, seat: &mut MarkSeat, other: MarkSeat)
        requires own { IsSeatOf self.now seat.old × IsSeatOf self.now other }
        ensures own { IsSeatOf self.now seat.new }
        ensures party { seat.new.party ≡ joined seat.old.party other.party }
    {
        let MarkSeat { seat: part } = other;
        self.table.shared.join_seat::<Both>(&mut seat.seat, part);
        // From this load the rule tells that no chunk was marked first by both.
        self.table.shared.load::<Look>(&mut seat.seat, 0);
    }

    /// Ends the marking. The set is what the seat of whole width marked, and each chunk of it was marked
    /// first once. It takes no memory.
    pub fn finish(self, seat: MarkSeat) -> MarkSet
        requires own { IsSeatOf self seat }
        requires whole { seat.party.width ≡ self.width }
        ensures chunks { result.chunks ≡ self.chunks }
        ensures marked { (c : ℕ) → Among c seat.party.marked → bit_of result.words c ≡ 1 }
        ensures set { (c : ℕ) → bit_of result.words c ≡ 1 → Among c seat.party.marked }
        ensures once { (c : ℕ) → times c seat.party.first ≡ bit_of result.words c }
    {
        let MarkBits {
            chunks,
            mut words,
            table,
        } = self;
        let MarkSeat { seat } = seat;
        let closed = table.close_with(seat);
        copy_words(&closed, &mut words);
        closed.free();
        MarkSet {
            words: Seq::from_vec(words),
            chunks,
        }
    }
}

// The words of the closed table.
fn copy_words(closed: &Closed<u64, Global>, words: &mut [u64])
    requires { IsFull closed.now.words × (slots_len closed.now.words ≡ length words.old) }
    ensures { words.new ≡ slots_items closed.now.words }
{
    for i in 0..words.len() {
        words[i] = closed.word(i);
    }
}
