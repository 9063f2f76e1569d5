//! The winner of each name that an object defines, by the name's number.
ghost use Rattle.std.specs.Prelude.{◌≡◌, None, fold, replicate, IfOk};
ghost use Rattle.partial_symbols.specs.Columns.{winner_number, won};

use crate::columns::or_spot;
use crate::facts::Spot;
use link_program::Winner;
use std::alloc::Global;
use wl_base::OutOfMemory;

/// The number of a winner's name, where an object defines it.
fn winner_number(winner: Winner) -> Option<u32>
    ensures { result ≡ winner_number winner }
{
    if winner.definition.input == 0 {
        None
    } else {
        Some(winner.name)
    }
}

/// Notes a winner.
fn note(column: &mut [Option<Spot>], winner: Winner)
    ensures { column.new ≡ won column.old winner }
{
    let Some(number) = winner_number(winner) else {
        return;
    };
    let number = number as usize;
    if number < column.len() {
        let spot = Spot {
            input: winner.definition.input,
            place: winner.definition.place,
        };
        column[number] = or_spot(column[number], spot);
    }
}

/// The winners that objects define, by the numbers of so many names.
pub(crate) fn winners_of(
    alloc: Global,
    winners: &[Winner],
    names: usize,
) -> Result<Vec<Option<Spot>>, OutOfMemory>
    ensures { IfOk result (λ column. column.items ≡ fold won (replicate names None) winners.now) }
{
    let mut column = vec![in alloc; None; names]?;
    for winner in winners {
        note(column.as_mut_slice(), *winner);
    }
    Ok(column)
}
