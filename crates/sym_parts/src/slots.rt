//! The table.
ghost use Rattle.std.specs.Prelude.{◌≡◌, ◌∷◌, ◌++◌, slice_index_or, None, map, drop, IfOk, OnOk};
ghost use Rattle.link_program.specs.Keys.{same_function_key};
ghost use Rattle.link_program.specs.index_layout.Numbers.{number_by};
ghost use Rattle.sym_parts.specs.Data.{no_function, taker_place};

use crate::placed::Functions;
use link_numbers::Numbering;
use link_program::FunctionKey;
use std::alloc::Global;
use wl_base::{OutOfMemory, Seq};

/// The function of a number of the output.
#[tactic(auto, using(link_program::proofs::ReadAt::read))]
fn key_at(keys: &[FunctionKey], number: u32) -> FunctionKey
    ensures { result ≡ slice_index_or keys.now number no_function }
{
    match keys.get(number as usize) {
        Some(key) => *key,
        None => FunctionKey::Import(0),
    }
}

/// Puts the places of functions of the output, by their numbers, behind the slots.
fn add_slots(
    slots: &mut Seq<Option<u32>>,
    functions: &Functions,
    output: &[FunctionKey],
    takers: &[u32],
) -> Result<(), OutOfMemory>
    ensures { OnOk result (slots.new ≡ slots.old ++ map (taker_place functions.now output.now) takers.now) }
{
    for taker in takers {
        slots.push(functions.place(key_at(output, *taker)))?;
    }
    Ok(())
}

/// The table: slot 0 is null, and each other one has a function.
pub fn table_of(
    alloc: Global,
    functions: &Functions,
    numbering: &Numbering,
) -> Result<Seq<Option<u32>>, OutOfMemory>
    ensures { IfOk result (λ table. table ≡ None ∷ map (taker_place functions.now numbering.now.functions) (map (number_by same_function_key numbering.now.functions) numbering.now.slots)) }
{
    let mut slots = Seq::new(alloc);
    slots.push(None)?;
    add_slots(
        &mut slots,
        functions,
        numbering.functions(),
        numbering.takers(),
    )?;
    Ok(slots)
}
