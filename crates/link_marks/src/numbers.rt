//! Lists of numbers that grow.
ghost use Rattle.std.specs.Prelude.{◌≡◌, ◌++◌, ◌∷◌, [], if◌then◌else◌, option_to_list, OnOk};

use wl_base::{OutOfMemory, Seq};

/// Adds a number, if there is one.
pub(crate) fn push_some(numbers: &mut Seq<u32>, number: Option<u32>) -> Result<(), OutOfMemory>
    ensures { OnOk result (numbers.new ≡ numbers.old ++ option_to_list number) }
{
    if let Some(number) = number {
        numbers.push(number)?;
    }
    Ok(())
}

/// Adds a number where the test holds.
pub(crate) fn push_if(numbers: &mut Seq<u32>, test: bool, number: u32) -> Result<(), OutOfMemory>
    ensures { OnOk result (numbers.new ≡ numbers.old ++ (if test then number ∷ [] else [])) }
{
    if test {
        numbers.push(number)?;
    }
    Ok(())
}
