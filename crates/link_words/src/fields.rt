//! What all items together say.
ghost use Rattle.std.specs.Prelude.{◌≡◌, ◌≤◌, ◌<◌, ◌^◌, ◌++◌, ℕ, length, unwrap_or, All, IfOk, IfSome, OnOk};
ghost use Rattle.std.specs.Option.{option_map};
ghost use Rattle.link_words.specs.Numbers.{most_of, IsIn};
ghost use Rattle.link_words.specs.Fields.{has as has_of, text as text_of, texts, numeral as numeral_of, latest, switch, entry as entry_of, exported as exported_of, exports as exports_of, inputs as inputs_of, open_group as open_group_of, case as case_of};

use crate::item::Item;
use crate::kind::Kind;
use crate::numeral::number;
use crate::range::Range;
use link_plan::InputWord;
use std::alloc::Global;
use wl_base::{Name, OutOfMemory, Seq};

/// Whether there is an item of the kind.
pub fn has(items: &[Item<'_>], kind: Kind) -> bool
    ensures { result ≡ has_of kind items.now }
{
    items.iter().any(|item| item.kind().is(kind))
}

/// What the last of two opposite kinds decides, or what stands where there is none.
pub fn is_on(items: &[Item<'_>], on: Kind, off: Kind, start: bool) -> bool
    ensures { result ≡ latest (switch on off) start items.now }
{
    let mut now = start;
    for item in items {
        if item.kind().is(on) {
            now = true;
        } else if item.kind().is(off) {
            now = false;
        }
    }
    now
}

/// The last value of an option.
pub fn text<'a>(items: &[Item<'a>], kind: Kind) -> Option<&'a str>
    ensures { option_map (λ t. t.now) result ≡ text_of kind items.now }
{
    let mut last = None;
    for item in items {
        if item.kind().is(kind) {
            last = Some(item.value());
        }
    }
    last
}

/// The last number of an option.
pub fn numeral(items: &[Item<'_>], kind: Kind, range: Range) -> Option<u64>
    ensures number { result ≡ numeral_of kind range items.now }
    ensures sound { IfSome result (IsIn range) }
{
    let mut last = None;
    for item in items {
        if item.kind().is(kind) {
            last = number(range, item.value().as_bytes());
        }
    }
    last
}

/// The last number of an option whose numbers have 32 bits.
pub fn small_numeral(items: &[Item<'_>], kind: Kind, range: Range) -> Option<u32>
    requires { most_of range < 2 ^ 32 }
    ensures number { result ≡ numeral_of kind range items.now }
    ensures sound { IfSome result (IsIn range) }
{
    match numeral(items, kind, range) {
        Some(n) => Some(n as u32),
        None => None,
    }
}

/// How many objects are to be generated, where that is asked for.
pub fn case(items: &[Item<'_>]) -> Option<u32>
    ensures number { result ≡ case_of items.now }
    ensures sound { IfSome result (IsIn Range.Cases) }
{
    small_numeral(items, Kind::MakeCase, Range::Cases)
}

/// The stack's bytes.
pub fn stack_size(items: &[Item<'_>]) -> u32
    ensures value { result ≡ unwrap_or (numeral_of Kind.StackSize Range.Stack items.now) 65536 }
    ensures sound { IsIn Range.Stack result }
{
    small_numeral(items, Kind::StackSize, Range::Stack).unwrap_or(65_536)
}

/// The least size of the memory.
pub fn initial_memory(items: &[Item<'_>]) -> u64
    ensures value { result ≡ unwrap_or (numeral_of Kind.InitialMemory Range.Memory items.now) 0 }
    ensures sound { IsIn Range.Memory result }
{
    numeral(items, Kind::InitialMemory, Range::Memory).unwrap_or(0)
}

/// How many workers there are.
pub fn threads(items: &[Item<'_>]) -> u32
    ensures value { result ≡ unwrap_or (numeral_of Kind.Threads Range.Workers items.now) 4 }
    ensures sound { IsIn Range.Workers result }
{
    small_numeral(items, Kind::Threads, Range::Workers).unwrap_or(4)
}

/// All values of an option, in the order of the words.
pub fn names(alloc: Global, items: &[Item<'_>], kind: Kind) -> Result<Seq<Name>, OutOfMemory>
    ensures { IfOk result (λ names. names ≡ texts kind items.now) }
{
    let mut names = Seq::new(alloc);
    for item in items {
        if item.kind().is(kind) {
            names.push(Seq::from_slice(alloc, item.value().as_bytes())?)?;
        }
    }
    Ok(names)
}

/// Puts the names that the items export behind those that are there.
pub fn add_exports(
    alloc: Global,
    items: &[Item<'_>],
    names: &mut Seq<Name>,
) -> Result<(), OutOfMemory>
    ensures { OnOk result (names.new ≡ names.old ++ exports_of items.now) }
{
    for item in items {
        if let Some(name) = exported(item) {
            names.push(Seq::from_slice(alloc, name.as_bytes())?)?;
        }
    }
    Ok(())
}

// The name that an item exports.
fn exported<'a>(item: &Item<'a>) -> Option<&'a str>
    ensures { option_map (λ t. t.now) result ≡ exported_of item.now }
{
    if item.kind().is(Kind::Export) {
        Some(item.value())
    } else if item.kind().is(Kind::ExportTable) {
        Some("__indirect_function_table")
    } else {
        None
    }
}

/// The entry function, with the one that is taken where no word tells.
pub fn entry<'a>(items: &[Item<'a>], usual: Option<&'a str>) -> Option<&'a str>
    ensures { option_map (λ t. t.now) result ≡ entry_of (option_map (λ t. t.now) usual.entry) items.now }
{
    let mut entry = usual;
    for item in items {
        if item.kind().is(Kind::Entry) {
            entry = Some(item.value());
        } else if item.kind().is(Kind::NoEntry) {
            entry = None;
        }
    }
    entry
}

/// The inputs, with the modes that stand before them.
pub fn inputs(alloc: Global, items: &[Item<'_>]) -> Result<Seq<InputWord>, OutOfMemory>
    ensures inputs { IfOk result (λ inputs. inputs ≡ inputs_of items.now) }
    ensures count { IfOk result (λ inputs. length inputs ≤ length items.now) }
    ensures places { (bound : ℕ) → All (λ item. item.at < bound) items.now → IfOk result (All (λ input. input.place < bound)) }
{
    let mut inputs = Seq::new(alloc);
    let mut lazy = false;
    let mut whole = false;
    for item in items {
        match item.kind() {
            Kind::Input => inputs.push(InputWord {
                place: item.at(),
                lazy,
                whole,
            })?,
            Kind::StartLib => lazy = true,
            Kind::EndLib => lazy = false,
            Kind::WholeArchive => whole = true,
            Kind::NoWholeArchive => whole = false,
            _ => {}
        }
    }
    Ok(inputs)
}

/// The place of the group that is left open.
pub fn open_group(items: &[Item<'_>]) -> Option<u32>
    ensures { result ≡ open_group_of items.now }
{
    let mut open = None;
    for item in items {
        if item.kind().is(Kind::StartLib) {
            open = Some(item.at());
        } else if item.kind().is(Kind::EndLib) {
            open = None;
        }
    }
    open
}
