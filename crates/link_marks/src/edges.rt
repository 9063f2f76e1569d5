//! What each part refers to, by the numbers of chunks. It is looked up where parts are marked: a list of it would take longer to make than all
//! marks, and dead parts would have their share of it.
ghost use Rattle.std.specs.Prelude.{◌≡◌};
ghost use Rattle.link_marks.specs.Seen.{named_number};

use link_program::Named;
use live_mark::Edges;
use wl_rows::Rows;

/// The number of the chunk to which an item leads.
fn number_named(led: &[Option<u32>], named: Named) -> Option<u32>
    ensures { result ≡ named_number led.now named }
{
    match named {
        Named::Symbol { symbol, .. } => match led.get(symbol as usize) {
            Some(number) => *number,
            None => None,
        },
        Named::Type { .. } => None,
    }
}

/// What parts refer to: the row of a part has what its windows name.
#[derive(Drop)]
pub(crate) struct PartEdges<'a> {
    /// What the windows of each part name.
    pub(crate) rows: &'a Rows<Named>,
    /// The number of the chunk to which each symbol leads.
    pub(crate) led: &'a [Option<u32>],
}

impl Edges for PartEdges<'_> {
    ghost use Rattle.link_marks.specs.Seen.{named_number, targets_seen};

    type Item = Named;

    ghost targets = { λ s. targets_seen s.led.now s.rows.now };

    ghost target = { λ s named. named_number s.led.now named };

    fn count(&self) -> usize {
        self.rows.len()
    }

    fn row(&self, chunk: u32) -> &[Named] {
        self.rows.row(chunk as usize)
    }

    fn target(&self, item: &Named) -> Option<u32> {
        number_named(self.led, *item)
    }
}
