//! How many parts of each input are live.
ghost use Rattle.std.specs.Prelude.{◌≡◌, ◌<◌, ◌≤◌, All, IfOk, replicate};
ghost use Rattle.lost_ctors.specs.declared.alive.Alive.TheVariants.{Nothing};
ghost use Rattle.lost_ctors.specs.Alive.{input_of, with_part, is_other, lives_beside, lives, alive_of, count_part, count_parts, AreAlive};

use link_marks::{Tables, part_at};
use std::alloc::Global;
use wl_base::{InputId, OutOfMemory};

/// How many parts of an input are live, as far as it matters.
#[derive(Clone, Copy, Debug, PartialEq, Eq)]
pub(crate) enum Alive {
    Nothing,
    /// The part of this number alone.
    Alone(u32),
    Many,
}

/// The input of a part.
fn input_of(tables: &Tables, number: u32) -> InputId
    ensures { result ≡ input_of tables.now number }
{
    part_at(tables, number).chunk.input
}

/// One live part more.
fn with_part(alive: Alive, number: u32) -> Alive
    ensures { result ≡ with_part alive number }
{
    match alive {
        Alive::Nothing => Alive::Alone(number),
        Alive::Alone(other) => {
            if other == number {
                Alive::Alone(other)
            } else {
                Alive::Many
            }
        }
        Alive::Many => Alive::Many,
    }
}

/// Whether a part isn't this one.
fn is_other(own: Option<u32>, number: u32) -> bool
    ensures { result ≡ is_other own number }
{
    match own {
        Some(own) => own != number,
        None => true,
    }
}

/// Whether another part than this one is live.
pub(crate) fn lives_beside(alive: Alive, own: Option<u32>) -> bool
    ensures { result ≡ lives_beside alive own }
{
    match alive {
        Alive::Nothing => false,
        Alive::Alone(number) => is_other(own, number),
        Alive::Many => true,
    }
}

/// Whether any part is live.
pub(crate) fn lives(alive: Alive) -> bool
    ensures { result ≡ lives alive }
{
    match alive {
        Alive::Nothing => false,
        Alive::Alone(_) | Alive::Many => true,
    }
}

/// A number that isn't less than this one, and is past the input.
fn past(inputs: usize, input: InputId) -> usize
    ensures low { inputs ≤ result }
    ensures past { input < result }
{
    let next = input as usize + 1;
    if next > inputs { next } else { inputs }
}

/// How many inputs there are up to that of the last of these parts.
fn inputs_of(tables: &Tables, live: &[u32]) -> usize
    ensures { All (λ n. input_of tables.now n < result) live.now }
{
    let mut inputs: usize = 0;
    for number in live {
        inputs = past(inputs, input_of(tables, *number));
    }
    inputs
}

/// One part more.
fn count_part(column: &mut [Alive], tables: &Tables, number: u32)
    ensures { column.new ≡ count_part tables.now column.old number }
{
    let input = input_of(tables, number) as usize;
    if input < column.len() {
        column[input] = with_part(column[input], number);
    }
}

/// These parts more.
fn count_parts(column: &mut [Alive], tables: &Tables, live: &[u32])
    ensures { column.new ≡ count_parts tables.now column.old live.now }
{
    for number in live {
        count_part(column, tables, *number);
    }
}

/// How many of these parts each of so many inputs has.
fn column_of(
    alloc: Global,
    tables: &Tables,
    live: &[u32],
    inputs: usize,
) -> Result<Vec<Alive>, OutOfMemory>
    ensures { IfOk result (λ alive. alive.items ≡ count_parts tables.now (replicate inputs Nothing) live.now) }
{
    let mut alive = vec![in alloc; Alive::Nothing; inputs]?;
    count_parts(alive.as_mut_slice(), tables, live);
    Ok(alive)
}

/// How many of these parts each input has.
pub(crate) fn alive_by_input(
    alloc: Global,
    tables: &Tables,
    live: &[u32],
) -> Result<Vec<Alive>, OutOfMemory>
    ensures { IfOk result (λ alive. AreAlive tables.now live.now alive.items) }
{
    let inputs = inputs_of(tables, live);
    let alive = column_of(alloc, tables, live, inputs)?;
    Ok(alive)
}

/// How many parts of an input are live.
pub(crate) fn alive_of(alive: &[Alive], input: InputId) -> Alive
    ensures { result ≡ alive_of alive.now input }
{
    match alive.get(input as usize) {
        Some(count) => *count,
        None => Alive::Nothing,
    }
}
