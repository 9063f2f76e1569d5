//! Functions by number, found without a hash. A table has a row for each input, as long as the indices that the output has of it, and says
//! the number of each function. The number is only believed where the list of functions has the function there: so all that has to be
//! known of the table is that it has every number, and that is tested once.
ghost use Rattle.std.specs.Prelude.{◌≡◌, true, slice_index_or, IfOk};
ghost use Rattle.link_keys.specs.link_program.index_layout.Numbers.{number_by};
ghost use Rattle.link_keys.specs.link_program.Keys.{same_function_key};
ghost use Rattle.link_numbers.specs.Rows.{row_of, index_of, number_told, stands_at, all_told};

use link_keys::FunctionKey;
use std::alloc::Global;
use std::marker::Model;
use wl_base::{OutOfMemory, Seq};

/// The row of a function: imports have the first one, stubs the second, and each input one of its own.
fn row_of(key: FunctionKey) -> usize
    ensures { result ≡ row_of key }
{
    match key {
        FunctionKey::Import(_) => 0,
        FunctionKey::Stub(_) => 1,
        FunctionKey::Own { input, index: _ } => input as usize + 2,
    }
}

/// The place of a function in its row.
fn index_of(key: FunctionKey) -> u32
    ensures { result ≡ index_of key }
{
    match key {
        FunctionKey::Import(index) | FunctionKey::Stub(index) => index,
        FunctionKey::Own { input: _, index } => index,
    }
}

/// Whether two keys are of one function.
fn is_same(a: FunctionKey, b: FunctionKey) -> bool
    ensures { result ≡ same_function_key a b }
{
    match (a, b) {
        (FunctionKey::Import(a), FunctionKey::Import(b)) => a == b,
        (FunctionKey::Stub(a), FunctionKey::Stub(b)) => a == b,
        (FunctionKey::Own { input: a, index: i }, FunctionKey::Own { input: b, index: j }) => {
            a == b && i == j
        }
        _ => false,
    }
}

/// The number at a place, or 0.
#[tactic(auto, using(crate::proofs::ReadAt::read))]
fn number_at(numbers: &[u32], at: usize) -> u32
    ensures { result ≡ slice_index_or numbers.now at 0 }
{
    match numbers.get(at) {
        Some(number) => *number,
        None => 0,
    }
}

/// What a table says of a function. `begins` says where each row begins.
fn number_told(begins: &[u32], numbers: &[u32], key: FunctionKey) -> u32
    ensures { result ≡ number_told begins.now numbers.now key }
{
    let begin = number_at(begins, row_of(key));
    number_at(numbers, begin as usize + index_of(key) as usize)
}

/// Whether a function stands at a place.
fn stands_at(keys: &[FunctionKey], at: u32, key: FunctionKey) -> bool
    ensures { result ≡ stands_at keys.now at key }
{
    match keys.get(at as usize) {
        Some(there) => is_same(key, *there),
        None => false,
    }
}

/// Whether a table says the place of each function.
fn all_told(begins: &[u32], numbers: &[u32], keys: &[FunctionKey]) -> bool
    ensures { result ≡ all_told (number_told begins.now numbers.now) 0 keys.now }
{
    for (at, key) in keys.iter().enumerate() {
        if number_told(begins, numbers, *key) as usize != at {
            return false;
        }
    }
    true
}

/// The number of a function, by a table that says the place of each; 0 where the function isn't there.
fn number_in(begins: &[u32], numbers: &[u32], keys: &[FunctionKey], key: FunctionKey) -> u32
    requires { all_told (number_told begins.now numbers.now) 0 keys.now ≡ true }
    ensures { result ≡ number_by same_function_key keys.now key }
{
    let number = number_told(begins, numbers, key);
    if stands_at(keys, number, key) {
        number
    } else {
        0
    }
}

/// Makes the row of a function as long as its index asks.
fn lengthen(lengths: &mut Vec<u32>, key: FunctionKey) -> Result<(), OutOfMemory> {
    let row = row_of(key);
    if row >= lengths.len() {
        lengths.resize(row + 1, 0)?;
    }
    let length = index_of(key).saturating_add(1);
    if lengths[row] < length {
        lengths[row] = length;
    }
    Ok(())
}

/// How long the rows of functions are.
fn row_lengths(alloc: Global, keys: &[FunctionKey]) -> Result<Vec<u32>, OutOfMemory> {
    let mut lengths = Vec::new(alloc);
    for key in keys {
        lengthen(&mut lengths, *key)?;
    }
    Ok(lengths)
}

/// Turns the lengths of rows into the places where they begin, and says where the last one ends, as far as a number holds it.
fn add_up(rows: &mut [u32]) -> u32 {
    let mut end = 0u32;
    for row in 0..rows.len() {
        let begin = end;
        end = end.saturating_add(rows[row]);
        rows[row] = begin;
    }
    end
}

/// Notes a number at a place, where there is one.
fn note(numbers: &mut [u32], at: usize, number: u32) {
    if at < numbers.len() {
        numbers[at] = number;
    }
}

/// Notes the number of each function.
fn note_all(begins: &[u32], numbers: &mut [u32], keys: &[FunctionKey]) {
    let mut number = 0u32;
    for key in keys {
        let begin = number_at(begins, row_of(*key));
        let at = begin as usize + index_of(*key) as usize;
        note(numbers, at, number);
        number = number.saturating_add(1);
    }
}

/// Functions, each with its place as its number. Contracts see the list of them.
#[derive(Drop)]
pub(crate) struct FunctionNumbers {
    keys: Seq<FunctionKey>,
    begins: Seq<u32>,
    numbers: Seq<u32>,
}

impl Model for FunctionNumbers {
    ghost use Rattle.std.specs.Prelude.{◌≡◌, List, true};
    ghost use Rattle.link_keys.specs.link_program.declared.keys.FunctionKey.{FunctionKey};
    ghost use Rattle.link_numbers.specs.Rows.{number_told, all_told};

    ghost Value = { List FunctionKey };

    ghost view = { λ n. n.keys };

    ghost invariant = { λ n. all_told (number_told n.begins n.numbers) 0 n.keys ≡ true };
}

impl FunctionNumbers {
    /// Numbers functions, which all differ. Were one there twice, or 2^32 of them, it would be answered as want of memory.
    pub(crate) fn new(alloc: Global, keys: Vec<FunctionKey>) -> Result<FunctionNumbers, OutOfMemory>
        ensures { IfOk result (λ n. n ≡ keys.items) }
    {
        let mut begins = row_lengths(alloc, &keys)?;
        let count = add_up(&mut begins);
        let mut numbers = vec![in alloc; 0u32; count as usize]?;
        note_all(&begins, &mut numbers, &keys);
        if !all_told(&begins, &numbers, &keys) {
            return Err(OutOfMemory);
        }
        Ok(FunctionNumbers {
            keys: Seq::from_vec(keys),
            begins: Seq::from_vec(begins),
            numbers: Seq::from_vec(numbers),
        })
    }

    /// The functions by number.
    pub(crate) fn keys(&self) -> &[FunctionKey]
        ensures { result.now ≡ self.now }
    {
        self.keys.as_slice()
    }

    /// The number of a function; 0 where it isn't there.
    pub(crate) fn of_or_first(&self, key: FunctionKey) -> u32
        ensures { result ≡ number_by same_function_key self.now key }
    {
        let begins = self.begins.as_slice();
        let numbers = self.numbers.as_slice();
        number_in(begins, numbers, self.keys.as_slice(), key)
    }
}
