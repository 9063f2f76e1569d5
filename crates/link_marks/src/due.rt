//! Which winners a shared output exports: those that the words and flags ask for; `__wasm_call_ctors`, where it calls init functions; and
//! `__wasm_apply_data_relocs`, where it has work.
ghost use Rattle.std.specs.Prelude.{◌≡◌, filter, IfOk};
ghost use Rattle.link_marks.specs.Due.{is_made_winner, is_due};

use crate::exported::is_export;
use link_program::Winner;
use std::alloc::Global;
use wl_base::{OutOfMemory, Seq};

/// The number of `__wasm_call_ctors`.
const CALL_CTORS: u32 = 0;

/// The number of `__wasm_apply_data_relocs` in a shared output.
const APPLY_DATA_RELOCS: u32 = 1;

/// Whether a winner is the linker's own symbol of a number.
fn is_made(number: u32, winner: &Winner) -> bool
    ensures { result ≡ is_made_winner number winner.now }
{
    winner.definition.input == 0 && winner.definition.place == number
}

/// Whether a winner is exported.
fn is_due(asked: &[bool], dynamic: bool, calls: bool, work: bool, winner: &Winner) -> bool
    ensures { result ≡ is_due asked.now dynamic calls work winner.now }
{
    is_export(asked, dynamic, winner)
        || is_made(CALL_CTORS, winner) && calls
        || is_made(APPLY_DATA_RELOCS, winner) && work
}

/// Those of the winners that are exported.
pub(crate) fn due(
    alloc: Global,
    asked: &[bool],
    dynamic: bool,
    calls: bool,
    work: bool,
    winners: &[Winner],
) -> Result<Seq<Winner>, OutOfMemory>
    ensures { IfOk result (λ es. es ≡ filter (is_due asked.now dynamic calls work) winners.now) }
{
    let mut exports = Seq::new(alloc);
    for winner in winners {
        if is_due(asked, dynamic, calls, work, winner) {
            exports.push(*winner)?;
        }
    }
    Ok(exports)
}
