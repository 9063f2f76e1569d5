//! Windows that overlap.
ghost use Rattle.std.specs.Prelude.{◌≡◌, Some};
ghost use Rattle.body_windows.specs.Windows.{least_with, least_overlap};

use reloc_section::Reloc;

/// How many bytes a window in code has.
const WINDOW: u64 = 5;

/// The least of these places and the one before, where there is one.
fn least_with(least: Option<u32>, place: u32) -> Option<u32>
    ensures { result ≡ Some (least_with place least) }
{
    match least {
        Some(before) if before <= place => Some(before),
        _ => Some(place),
    }
}

/// The least offset of a relocation that begins before the window of the one listed before it ends;
/// `None` exactly where offsets rise and no two windows overlap.
pub fn least_overlap(relocs: &[Reloc]) -> Option<u32>
    ensures { result ≡ least_overlap relocs.now }
{
    let mut least = None;
    let mut end = 0;
    for reloc in relocs {
        let offset = u64::from(reloc.offset);
        if offset < end {
            least = least_with(least, reloc.offset);
        }
        end = offset + WINDOW;
    }
    least
}
