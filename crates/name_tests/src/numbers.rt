//! Names by number, in the order in which they are met.

use crate::objects::{nothing, symbol};
use link_names::Names;
use made_symbols::Mode;
use object_file::{LOCAL, Object, SymbolKind, Symbols, UNDEFINED};
use std::alloc::Global;
use test_kit::{group, name};
use wl_base::{Name, NameFault, OutOfMemory, Seq};

/// A section's symbol, a local `l`, a definition `f` and a local reference `g`.
fn add_symbols(to: &mut Symbols) -> Result<(), OutOfMemory> {
    to.push(symbol(SymbolKind::Section, LOCAL, None))?;
    to.push(symbol(SymbolKind::Function, LOCAL, Some(b"l".as_slice())))?;
    to.push(symbol(SymbolKind::Function, 0, Some(b"f".as_slice())))?;
    to.push(symbol(SymbolKind::Datum, LOCAL | UNDEFINED, Some(b"g".as_slice())))
}

/// These symbols and one group.
fn add_parts(alloc: Global, to: &mut Object, text: &str) -> Result<(), OutOfMemory> {
    add_symbols(&mut to.symbols)?;
    let group = group(alloc, text, &[])?;
    to.groups.push(group)
}

/// An object with these symbols and one group.
fn add_object(
    alloc: Global,
    to: &mut Seq<Object>,
    input: u32,
    text: &str,
) -> Result<(), OutOfMemory> {
    let mut object = nothing(alloc, input);
    add_parts(alloc, &mut object, text)?;
    to.push(object)
}

fn add_objects(alloc: Global, to: &mut Seq<Object>) -> Result<(), OutOfMemory> {
    add_object(alloc, to, 1, "f")?;
    add_object(alloc, to, 2, "h")
}

fn add_word(alloc: Global, to: &mut Seq<Name>, text: &str) -> Result<(), OutOfMemory> {
    let word = name(alloc, text)?;
    to.push(word)
}

fn add_words(alloc: Global, to: &mut Seq<Name>) -> Result<(), OutOfMemory> {
    add_word(alloc, to, "w")?;
    add_word(alloc, to, "g")
}

/// All numbers that are looked at.
type Numbers = ([Option<u32>; 4], [Option<u32>; 2], [Option<u32>; 2], u32);

/// The numbers that these names have beyond the linker-made ones, and how many there are.
fn numbers(names: &Names) -> Numbers {
    (
        [
            names.symbol(0, 0),
            names.symbol(0, 1),
            names.symbol(1, 2),
            names.symbol(1, 3),
        ],
        [names.group(0, 0), names.group(1, 0)],
        [names.made(1), names.find(b"w".as_slice())],
        names.count(),
    )
}

fn told_of(
    alloc: Global,
    words: &[Name],
    objects: &[Object],
    limit: u32,
) -> Result<Numbers, NameFault> {
    let names = Names::new(alloc, Mode::Plain, words, objects, limit)?;
    Ok(numbers(&names))
}

fn told_with(alloc: Global, objects: &[Object], limit: u32) -> Result<Numbers, NameFault> {
    let mut words = Seq::new(alloc);
    match add_words(alloc, &mut words) {
        Ok(()) => told_of(alloc, words.as_slice(), objects, limit),
        Err(_) => Err(NameFault::OutOfMemory),
    }
}

fn told(alloc: Global, limit: u32) -> Result<Numbers, NameFault> {
    let mut objects = Seq::new(alloc);
    match add_objects(alloc, &mut objects) {
        Ok(()) => told_with(alloc, objects.as_slice(), limit),
        Err(_) => Err(NameFault::OutOfMemory),
    }
}

fn are_numbered(alloc: Global) -> bool {
    let made = made_symbols::count(Mode::Plain);
    let all = made.wrapping_add(4);
    let symbols = [None, None, Some(made), Some(made.wrapping_add(1))];
    let groups = [Some(made), Some(made.wrapping_add(2))];
    let others = [Some(1), Some(made.wrapping_add(3))];
    told(alloc, all) == Ok((symbols, groups, others, all))
        && told(alloc, made.wrapping_add(3)) == Err(NameFault::TooMany)
}

#[test]
fn names_are_numbered_in_their_order(rt: HostRuntime) {
    assert!(rt; are_numbered(rt.alloc()));
}
