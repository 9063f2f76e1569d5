//! What a share does with its seat.
ghost use Rattle.std.specs.Prelude.{◌≡◌, ◌-◌, ◌<◌, ◌≤◌, [], option_to_list};
ghost use Rattle.mark_bits.specs.Seats.{IsSeatOf};
ghost use Rattle.live_mark.specs.Asks.{Below};
ghost use Rattle.live_mark.specs.Shares.{Adds};

use crate::found::Found;
use mark_bits::{MarkBits, MarkSeat};

/// Marks a chunk, if there is one, and notes it where it is marked first.
pub fn mark_some(bits: &MarkBits, seat: &mut MarkSeat, asked: Option<u32>, found: &mut Found)
    requires own { IsSeatOf bits.now seat.old }
    requires below { Below bits.now.chunks (option_to_list asked) }
    ensures own { IsSeatOf bits.now seat.new }
    ensures adds { Adds seat.old seat.new (option_to_list asked) found.old.chunks.items found.new.chunks.items found.old.refused found.new.refused }
{
    let Some(chunk) = asked else {
        return;
    };
    if bits.mark(seat, chunk) {
        found.note(chunk);
    }
}

/// Cuts a seat that has marked nothing off this one.
pub fn cut_seat(bits: &MarkBits, seat: &mut MarkSeat, width: u32) -> MarkSeat
    requires own { IsSeatOf bits.now seat.old }
    requires width { (1 ≤ width) × (width < seat.old.party.width) }
    ensures own { IsSeatOf bits.now seat.new × IsSeatOf bits.now result }
    ensures width { (seat.new.party.width ≡ seat.old.party.width - width) × (result.party.width ≡ width) }
    ensures kept { (seat.new.party.marked ≡ seat.old.party.marked) × (seat.new.party.first ≡ seat.old.party.first) }
    ensures given { (result.party.marked ≡ []) × (result.party.first ≡ []) }
{
    bits.split(seat, width)
}
