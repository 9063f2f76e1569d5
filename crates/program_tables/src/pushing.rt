//! Values that may be absent, at the end of a list.
ghost use Rattle.std.specs.Prelude.{◌≡◌, ◌++◌, [], OnOk};
ghost use Rattle.std.specs.List.{cons_option};

use wl_base::{OutOfMemory, Seq};

/// Puts the item at the end, if there is one.
pub(crate) fn push_some<T: Drop>(items: &mut Seq<T>, item: Option<T>) -> Result<(), OutOfMemory>
    ensures { OnOk result (items.new ≡ items.old ++ cons_option item []) }
{
    match item {
        Some(item) => items.push(item),
        None => Ok(()),
    }
}
