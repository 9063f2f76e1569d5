//! The race and its seats.
ghost use Rattle.std.specs.Prelude.{◌≡◌, ℕ, ◌+◌, ◌<◌, ◌≤◌, ◌^◌, false, length, slice_index, IfOk, IfSome, IfNone};
ghost use Rattle.std.specs.Mem.Slots.{slots_items, slots_len, IsFull};
ghost use Rattle.least_race.specs.Jobs.{WordsBelow};
ghost use Rattle.least_race.specs.Race.{starter, with_claim, with_pass, proposed, kept_part, given_part, joined, times, once_below, least};
ghost use Rattle.least_race.specs.Seats.{IsSeatOf, MayPropose};

use crate::jobs::Jobs;
use crate::party::{Offer, Party};
use crate::rule::{Both, Claim, Halve, Least, Propose, Terms, Width};
use atomic_table::{Closed, Seat, Table};
use std::alloc::Global;
use std::marker::{Brand, Model};
use std::snapshot::Snapshot;
use wl_base::{OutOfMemory, Seq};

/// A race over jobs. Contracts see its width, its words at the start and its jobs.
#[derive(Drop)]
pub struct LeastRace<J: Jobs> {
    jobs: J,
    // a copy of the words at the start, which `finish` writes its answer over
    words: Vec<u64>,
    table: Table<u64, Party, Terms, Least, Global>,
}

impl<J: Jobs> Model for LeastRace<J> {
    ghost use Rattle.std.specs.Prelude.{length};
    ghost use Rattle.least_race.specs.Seats.{RaceView, IsTable};

    ghost Value = { RaceView };

    ghost view = { λ r. record { race = r.table.shared.table_id; width = r.table.shared.key.width; base = r.table.shared.key.base.value.items; jobs = J.list r.jobs } };

    ghost invariant = { λ r. IsTable r.table.shared.table_id r.table.shared.key.jobs (length r.words.items) r.table.shared.key.base.value.items (J.list r.jobs) };
}

/// A seat of a race, through which a thread takes its steps. Contracts see what it knows.
#[derive(Drop)]
pub struct RaceSeat {
    last: u64,
    seat: Seat<u64, Party>,
}

impl Model for RaceSeat {
    ghost use Rattle.std.specs.Prelude.{◌≡◌, ◌<◌, []};
    ghost use Rattle.least_race.specs.Seats.{SeatView};

    ghost Value = { SeatView };

    ghost view = { λ s. record { race = s.seat.table_id; party = s.seat.me.0; last = s.last } };

    ghost invariant = { λ s. (s.seat.me.1 ≡ []) × (0 < s.seat.me.0.width) };
}

impl RaceSeat {
    /// The number that this seat drew last, and 0 before its first draw.
    pub fn last(&self) -> u64
        ensures { result ≡ self.now.last }
    {
        self.last
    }
}

impl<J: Jobs> LeastRace<J> {
    /// A race over these jobs for the words that begin as `base`, and its one seat, which has the
    /// whole width. The race takes no memory after this.
    pub fn new(
        alloc: Global,
        base: &[u64],
        jobs: J,
        width: u32,
    ) -> Result<(LeastRace<J>, RaceSeat), OutOfMemory>
        requires width { (1 ≤ width) × (width ≤ 64) }
        requires jobs { length (J.list jobs) < 2 ^ 31 }
        requires words { WordsBelow (length base.now) (J.list jobs) }
        ensures race { IfOk result (λ r. (r.0.base ≡ base.now) × (r.0.jobs ≡ J.list jobs) × (r.0.width ≡ width)) }
        ensures seat { IfOk result (λ r. IsSeatOf r.0 r.1 × (r.1.party ≡ starter width (length (J.list jobs)) base.now) × (r.1.last ≡ 0)) }
    {
        let mut row = Vec::with_capacity(alloc, base.len() + 1)?;
        row.push(0)?;
        row.extend_from_slice(base)?;
        let words = base.to_vec(alloc)?;
        let terms = Terms {
            width,
            jobs: jobs.count(),
            base: Snapshot::of(&words),
        };
        let (table, seat) = Table::of_words(alloc, row.as_slice(), &terms)?;
        Ok((LeastRace { jobs, words, table }, RaceSeat { last: 0, seat }))
    }

    /// The jobs.
    pub fn jobs(&self) -> &J
        ensures { J.list result.now ≡ self.now.jobs }
    {
        &self.jobs
    }

    /// Draws the next number, which is greater than each that this seat claimed before, and which
    /// `last` then is. `Some` is the job of this number, which the seat has then claimed. `None` comes
    /// exactly where no job has the number; the seat has then ended and may not draw again, so by its own calls a seat
    /// draws at most one number more than there are jobs.
    pub fn claim(&self, seat: &mut RaceSeat) -> Option<u32>
        requires own { IsSeatOf self.now seat.old }
        requires running { seat.old.party.ended ≡ false }
        ensures own { IsSeatOf self.now seat.new }
        ensures later { (x : ℕ) → 0 < times x seat.old.party.claims → x < seat.new.last }
        ensures some { IfSome result (λ n. (n ≡ seat.new.last) × (n < length self.now.jobs) × (seat.new.party ≡ with_claim seat.old.party n)) }
        ensures none { IfNone result ((length self.now.jobs ≤ seat.new.last) × (seat.new.party ≡ with_pass seat.old.party seat.new.last)) }
        ensures few { length seat.new.party.claims ≤ length self.now.jobs }
    {
        let n = self.table.shared.fetch_add::<Claim>(&mut seat.seat, 0, 1);
        seat.last = n;
        if n < u64::from(self.jobs.count()) {
            Some(n as u32)
        } else {
            None
        }
    }

    /// Offers a rank for a word, which becomes the lesser of the two, and tells what stood there
    /// before. The offer is one of a job that this seat claimed.
    pub fn propose(&self, seat: &mut RaceSeat, offer: Offer) -> u64
        requires own { IsSeatOf self.now seat.old }
        requires offered { MayPropose self.now.jobs seat.old.party offer }
        ensures own { IsSeatOf self.now seat.new }
        ensures added { seat.new.party ≡ proposed seat.old.party offer result }
        ensures low { result ≤ least offer.word (slice_index self.now.base offer.word) seat.old.party.proposals }
        ensures last { seat.new.last ≡ seat.old.last }
    {
        let shared = &self.table.shared;
        let word = offer.word as usize + 1;
        shared.fetch_min::<Propose>(&mut seat.seat, word, offer.rank)
    }

    /// Cuts a new seat of this width off a seat.
    pub fn split(&self, seat: &mut RaceSeat, width: u32) -> RaceSeat
        requires own { IsSeatOf self.now seat.old }
        requires width { (1 ≤ width) × (width < seat.old.party.width) }
        ensures own { IsSeatOf self.now seat.new × IsSeatOf self.now result }
        ensures kept { (seat.new.party ≡ kept_part width seat.old.party) × (seat.new.last ≡ seat.old.last) }
        ensures given { (result.party ≡ given_part width seat.old.party) × (result.last ≡ 0) }
    {
        self.split_by::<Brand>(seat, width)
    }

    // The same, where the width is also a ghost number that the step can tell.
    fn split_by<W: Width>(&self, seat: &mut RaceSeat, width: u32) -> RaceSeat
        requires own { IsSeatOf self.now seat.old }
        requires part { W.part ≡ width }
        requires width { (1 ≤ width) × (width < seat.old.party.width) }
        ensures own { IsSeatOf self.now seat.new × IsSeatOf self.now result }
        ensures kept { (seat.new.party ≡ kept_part width seat.old.party) × (seat.new.last ≡ seat.old.last) }
        ensures given { (result.party ≡ given_part width seat.old.party) × (result.last ≡ 0) }
    {
        let _width = width;
        let part = self.table.shared.split_seat::<Halve<W>>(&mut seat.seat);
        RaceSeat {
            last: 0,
            seat: part,
        }
    }

    /// Takes another seat in, with all that it knows. The joined seat has ended.
    pub fn join(&self, seat: &mut RaceSeat, other: RaceSeat)
        requires own { IsSeatOf self.now seat.old × IsSeatOf self.now other }
        ensures own { IsSeatOf self.now seat.new }
        ensures party { (seat.new.party ≡ joined seat.old.party other.party) × (seat.new.last ≡ seat.old.last) }
    {
        let RaceSeat {
            last: _,
            seat: part,
        } = other;
        self.table.shared.join_seat::<Both>(&mut seat.seat, part);
    }

    /// Ends the race with the seat of whole width, and tells the words: each is the least of its
    /// base and the ranks that the seat proposed there. The seat's claims are distinct, and they are
    /// all jobs where it drew a number past them.
    pub fn finish(self, seat: RaceSeat) -> Seq<u64>
        requires own { IsSeatOf self seat }
        requires whole { seat.party.width ≡ self.width }
        ensures length { length result ≡ length self.base }
        ensures least { (i : ℕ) → i < length self.base → slice_index result i ≡ least i (slice_index self.base i) seat.party.proposals }
        ensures distinct { (x : ℕ) → times x seat.party.claims ≤ 1 }
        ensures all { 0 < seat.party.passes → (x : ℕ) → times x seat.party.claims ≡ once_below x (length self.jobs) }
    {
        let LeastRace {
            jobs: _,
            mut words,
            table,
        } = self;
        let RaceSeat { last: _, seat } = seat;
        let closed = table.close_with(seat);
        copy_words(&closed, &mut words);
        closed.free();
        Seq::from_vec(words)
    }
}

// Copies all words but the first.
fn copy_words(closed: &Closed<u64, Global>, words: &mut [u64])
    requires { IsFull closed.now.words × (slots_len closed.now.words ≡ length words.old + 1) }
    ensures { (i : ℕ) → i < length words.old → slice_index words.new i ≡ slice_index (slots_items closed.now.words) (i + 1) }
{
    for i in 0..words.len() {
        words[i] = closed.word(i + 1);
    }
}
