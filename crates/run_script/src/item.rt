//! What a line says: the word that it begins with, and those behind it.
ghost use Rattle.std.specs.Prelude.{◌≡◌, ◌<◌, ◌≤◌, ◌==◌, [], None, IfOk, IfSome, map, option_map};
ghost use Rattle.std.specs.List.{list_any};
ghost use Rattle.run_script.specs.declared.item.Item.TheVariants.{Pages as ThePages, Entries as TheEntries};
ghost use Rattle.run_script.specs.Said.{name_in, value_in};
ghost use Rattle.run_script.specs.Items.{values_onto, values_in, given, global_with, one_value, head_in, hex_onto, write_in, is_write, answer_onto, one_number, global_in, call_in, trap_in, grow_in, item_by, item_in};

use crate::names::{hex, name};
use crate::numbers::number;
use crate::pieces::cut;
use crate::values::{MOST_WORD, value};
use run_rules::{Answer, Call, GivenGlobal, MemWrite, Value};
use std::alloc::Global;
use wl_base::{Name, OutOfMemory, Seq};

// The most pages of a memory, and the most entries of a table.
const MOST_PAGES: u64 = 65_536;

const MOST_ENTRIES: u64 = 10_000_000;

/// What a line says.
#[derive(Drop)]
pub enum Item {
    /// The pages of an imported memory.
    Pages(u32),
    /// The entries of an imported table.
    Entries(u32),
    /// The first value of an imported global.
    First(GivenGlobal),
    /// A call of an export.
    Calls(Call),
    /// An answer of the host.
    Answers(Answer),
}

// The values that words say.
fn values(alloc: Global, words: &[&[u8]]) -> Result<Option<Seq<Value>>, OutOfMemory>
    ensures { IfOk result (λ values. values ≡ values_in (map (λ w. w.now) words.now)) }
{
    let mut values = Seq::new(alloc);
    for word in words {
        let Some(value) = value(word) else {
            return Ok(None);
        };
        values.push(value)?;
    }
    Ok(Some(values))
}

// The bytes that digits spell: at least one, two digits each.
fn bytes_of(alloc: Global, digits: &[u8]) -> Result<Option<Seq<u8>>, OutOfMemory>
    ensures { IfOk result (λ bytes. bytes ≡ hex_onto [] None digits.now) }
{
    let mut bytes = Seq::new(alloc);
    let mut high = None;
    for digit in digits {
        let Some(low) = hex(*digit) else {
            return Ok(None);
        };
        match high {
            None => high = Some(low),
            Some(h) => {
                bytes.push(16 * h + low)?;
                high = None;
            }
        }
    }
    if high.is_some() || bytes.len() == 0 {
        return Ok(None);
    }
    Ok(Some(bytes))
}

// A write to memory: an address, `=` and bytes.
fn write(alloc: Global, word: &[u8]) -> Result<Option<MemWrite>, OutOfMemory>
    ensures { IfOk result (λ write. write ≡ write_in word.now) }
{
    let pieces = cut(alloc, b'=', word)?;
    match pieces.as_slice() {
        [address, digits] => {
            let Some(address) = number(MOST_WORD, address) else {
                return Ok(None);
            };
            let Some(bytes) = bytes_of(alloc, digits)? else {
                return Ok(None);
            };
            Ok(Some(MemWrite {
                address: address as u32,
                bytes,
            }))
        }
        _ => Ok(None),
    }
}

// Whether a word is to say a write.
fn is_write(word: &[u8]) -> bool
    ensures { result ≡ is_write word.now }
{
    word.iter().any(|b| *b == b'=')
}

// An answer to a call: writes, and then values.
fn answer(alloc: Global, words: &[&[u8]]) -> Result<Option<Answer>, OutOfMemory>
    ensures { IfOk result (λ answer. answer ≡ answer_onto [] (map (λ w. w.now) words.now)) }
{
    let mut writes = Seq::new(alloc);
    let mut rest = words;
    while let [word, after @ ..] = rest {
        if !is_write(word) {
            break;
        }
        let Some(write) = write(alloc, word)? else {
            return Ok(None);
        };
        writes.push(write)?;
        rest = after;
    }
    match values(alloc, rest)? {
        None => Ok(None),
        Some(values) => Ok(Some(Answer::Results { writes, values })),
    }
}

// The value that one word says.
fn one_value(words: &[&[u8]]) -> Option<Value>
    ensures { result ≡ one_value (map (λ w. w.now) words.now) }
{
    match words {
        [word] => value(word),
        _ => None,
    }
}

// A global with its first value, where all three are there.
fn given(from: Option<Name>, field: Option<Name>, value: Option<Value>) -> Option<GivenGlobal>
    ensures { result ≡ given from field value }
{
    match (from, field, value) {
        (Some(module), Some(field), Some(value)) => Some(GivenGlobal {
            module,
            field,
            value,
        }),
        _ => None,
    }
}

// The global of a module, by the words behind it.
fn global_with(
    alloc: Global,
    from: Option<Name>,
    words: &[&[u8]],
) -> Result<Option<GivenGlobal>, OutOfMemory>
    ensures { IfOk result (λ global. global ≡ global_with from (map (λ w. w.now) words.now)) }
{
    match words {
        [] => Ok(None),
        [field, rest @ ..] => {
            let field = name(alloc, field)?;
            Ok(given(from, field, one_value(rest)))
        }
    }
}

// A global: a module, a field and a value.
fn global(alloc: Global, words: &[&[u8]]) -> Result<Option<GivenGlobal>, OutOfMemory>
    ensures { IfOk result (λ global. global ≡ global_in (map (λ w. w.now) words.now)) }
{
    match words {
        [] => Ok(None),
        [module, rest @ ..] => {
            let module = name(alloc, module)?;
            global_with(alloc, module, rest)
        }
    }
}

// A call: a name and values.
fn call(alloc: Global, words: &[&[u8]]) -> Result<Option<Call>, OutOfMemory>
    ensures { IfOk result (λ call. call ≡ call_in (map (λ w. w.now) words.now)) }
{
    let [called, given @ ..] = words else {
        return Ok(None);
    };
    let Some(name) = name(alloc, called)? else {
        return Ok(None);
    };
    let Some(args) = values(alloc, given)? else {
        return Ok(None);
    };
    Ok(Some(Call { name, args }))
}

// The answer that it traps, behind which stands nothing.
fn trap(words: &[&[u8]]) -> Option<Answer>
    ensures { result ≡ trap_in (map (λ w. w.now) words.now) }
{
    match words {
        [] => Some(Answer::Trap),
        _ => None,
    }
}

// The answer whether a memory may grow.
fn grow(words: &[&[u8]]) -> Option<Answer>
    ensures { result ≡ grow_in (map (λ w. w.now) words.now) }
{
    match words {
        [[b'y', b'e', b's']] => Some(Answer::Grow(true)),
        [[b'n', b'o']] => Some(Answer::Grow(false)),
        _ => None,
    }
}

// The number that one word spells.
fn one_number(most: u64, words: &[&[u8]]) -> Option<u64>
    ensures is { result ≡ one_number most (map (λ w. w.now) words.now) }
    ensures small { IfSome result (λ n. n ≤ most) }
{
    match words {
        [word] => number(most, word),
        _ => None,
    }
}

// The pages of a memory.
fn pages(words: &[&[u8]]) -> Option<Item>
    ensures { result ≡ option_map ThePages (one_number 65536 (map (λ w. w.now) words.now)) }
{
    match one_number(MOST_PAGES, words) {
        None => None,
        Some(n) => Some(Item::Pages(n as u32)),
    }
}

// The entries of a table.
fn entries(words: &[&[u8]]) -> Option<Item>
    ensures { result ≡ option_map TheEntries (one_number 10000000 (map (λ w. w.now) words.now)) }
{
    match one_number(MOST_ENTRIES, words) {
        None => None,
        Some(n) => Some(Item::Entries(n as u32)),
    }
}

/// The words with which lines begin.
#[derive(Clone, Copy, Debug)]
pub enum Head {
    /// `memory`
    OfMemory,
    /// `table`
    OfTable,
    /// `global`
    OfGlobal,
    /// `call`
    OfCall,
    /// `answer`
    OfAnswer,
    /// `trap`
    OfTrap,
    /// `grow`
    OfGrow,
}

// The word with which a line begins.
fn head_of(word: &[u8]) -> Option<Head>
    ensures { result ≡ head_in word.now }
{
    if word == b"memory".as_slice() {
        Some(Head::OfMemory)
    } else if word == b"table".as_slice() {
        Some(Head::OfTable)
    } else if word == b"global".as_slice() {
        Some(Head::OfGlobal)
    } else if word == b"call".as_slice() {
        Some(Head::OfCall)
    } else if word == b"answer".as_slice() {
        Some(Head::OfAnswer)
    } else if word == b"trap".as_slice() {
        Some(Head::OfTrap)
    } else if word == b"grow".as_slice() {
        Some(Head::OfGrow)
    } else {
        None
    }
}

// What a line says that begins so.
fn item_by(alloc: Global, head: Option<Head>, rest: &[&[u8]]) -> Result<Option<Item>, OutOfMemory>
    ensures { IfOk result (λ item. item ≡ item_by head (map (λ w. w.now) rest.now)) }
{
    match head {
        None => Ok(None),
        Some(Head::OfMemory) => Ok(pages(rest)),
        Some(Head::OfTable) => Ok(entries(rest)),
        Some(Head::OfGlobal) => Ok(global(alloc, rest)?.map(Item::First)),
        Some(Head::OfCall) => Ok(call(alloc, rest)?.map(Item::Calls)),
        Some(Head::OfAnswer) => Ok(answer(alloc, rest)?.map(Item::Answers)),
        Some(Head::OfTrap) => Ok(trap(rest).map(Item::Answers)),
        Some(Head::OfGrow) => Ok(grow(rest).map(Item::Answers)),
    }
}

/// What a line says, by its words; `None` where it says nothing that may be said.
///
/// # Errors
/// Want of memory.
pub fn line_item(alloc: Global, words: &[&[u8]]) -> Result<Option<Item>, OutOfMemory>
    ensures { IfOk result (λ item. item ≡ item_in (map (λ w. w.now) words.now)) }
{
    match words {
        [] => Ok(None),
        [head, rest @ ..] => item_by(alloc, head_of(head), rest),
    }
}
