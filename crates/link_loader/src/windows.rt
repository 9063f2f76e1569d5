//! The words of live data.
ghost use Rattle.std.specs.Prelude.{◌≡◌, ◌++◌, ◌≤ℤ◌, ◌+ℤ◌, ◌^◌, ◌-◌, pos, negsuc, true, filter, filter_map, flat_map, drop, IfOk, OnOk};
ghost use Rattle.std.specs.Option.{option_to_list};
ghost use Rattle.std.specs.List.{list_all};
ghost use Rattle.link_program.specs.reloc_apply.Windows.{bits32};
ghost use Rattle.link_program.specs.link_rules.ModeOf.{mode_of};
ghost use Rattle.link_program.specs.link_rules.Values as values;
ghost use Rattle.link_program.specs.link_rules.Output.{layout as laid_out};
ghost use Rattle.link_program.specs.Live.{Stage};
ghost use Rattle.link_program.specs.Look.{row_at};
ghost use Rattle.link_layout.specs.Seen.{is_solid_at};
ghost use Rattle.link_layout.specs.Layout.{looked, IsLayout};
ghost use Rattle.link_loader.specs.Cells.{cell_at};
ghost use Rattle.link_loader.specs.Words.{entry_told, own_value, foreign_value, symbol_value, window_word, segment_words, is_told_by, is_told, told_part};
ghost use Rattle.link_loader.specs.Layout.{loading};

use crate::cells::{cell_at, is_addressed};
use crate::placed::{address_at, is_solid};
use dylink_out::{WordPlace, WordReloc, WordValue};
use link_layout::Layout;
use link_program::{Definition, GlobalKey, Lead, Named, Symbol, function_of, row_at, symbol_at};
use reloc_section::kinds;
use wl_base::{OutOfMemory, Seq};

// A number modulo 2^32.
fn bits(value: i64) -> u32
    requires { negsuc (2 ^ 31 - 1) ≤ℤ value }
    ensures { result ≡ bits32 value }
{
    if value < 0 {
        (value + 0x1_0000_0000) as u32
    } else {
        (value as u64 % 0x1_0000_0000) as u32
    }
}

// An address and an addend, modulo 2^32. An address of 2^62 and more is answered as want of memory.
pub(crate) fn offset(address: u64, addend: i32) -> Result<u32, OutOfMemory>
    ensures { IfOk result (λ n. n ≡ bits32 (pos address +ℤ addend)) }
{
    if address >= 1 << 62 {
        return Err(OutOfMemory);
    }
    Ok(bits(address as i64 + i64::from(addend)))
}

/// The address of a definition.
pub(crate) fn address(layout: Layout<'_>, definition: Definition) -> u64
    ghost s: { Stage }
    requires { IsLayout s.program s.parts s.exports layout }
    ensures { result ≡ values.address_of (mode_of s.program.plan) (laid_out (mode_of s.program.plan) s.program s.parts s.exports) (entry_told definition) }
{
    layout.address(definition)
}

// What a window holds that names a definition of the link.
fn own_value(
    layout: Layout<'_>,
    kind: u8,
    addend: i32,
    definition: Definition,
) -> Result<WordValue, OutOfMemory>
    ghost s: { Stage }
    requires { IsLayout s.program s.parts s.exports layout }
    ensures { IfOk result (λ v. v ≡ own_value (loading s layout.entry) kind addend definition) }
{
    if kind == kinds::TABLE_INDEX_I32 {
        return Ok(WordValue::OwnFunction(layout.numbering.slot(function_of(definition))));
    }
    let offset = offset(address(layout, definition), addend)?;
    Ok(WordValue::OwnDatum(offset))
}

// What a window holds that names what is foreign, by the import of its cell.
fn foreign_value(layout: Layout<'_>, kind: u8, addend: i32, cell: u32) -> WordValue
    ensures { (s : Stage) → result ≡ foreign_value (loading s layout.entry) kind addend cell }
{
    let global = layout.numbering.global_number(GlobalKey::Import(cell));
    if kind == kinds::TABLE_INDEX_I32 {
        WordValue::ForeignFunction(global)
    } else {
        WordValue::ForeignDatum { global, addend }
    }
}

// What a window holds that names the foreign symbol at a place.
fn outside_value(layout: Layout<'_>, kind: u8, addend: i32, at: u32, symbol: Symbol) -> WordValue
    ensures { (s : Stage) → result ≡ foreign_value (loading s layout.entry) kind addend (cell_at layout.entry.program.resolution.now.cells at symbol) }
{
    let cell = cell_at(layout.program.resolution, at, symbol);
    foreign_value(layout, kind, addend, cell)
}

// What a window holds that names the symbol at a place.
fn symbol_value(
    layout: Layout<'_>,
    kind: u8,
    addend: i32,
    at: u32,
    symbol: Symbol,
) -> Result<WordValue, OutOfMemory>
    ghost s: { Stage }
    requires { IsLayout s.program s.parts s.exports layout }
    ensures { IfOk result (λ v. v ≡ symbol_value (loading s layout.entry) kind addend at symbol) }
{
    match symbol.lead {
        Lead::Here(definition) => {
            let value = own_value(layout, kind, addend, definition)?;
            Ok(value)
        }
        Lead::Import(_) => {
            let value = outside_value(layout, kind, addend, at, symbol);
            Ok(value)
        }
        Lead::Null | Lead::Nothing => Ok(WordValue::OwnDatum(0)),
    }
}

// The word of a window, in a segment that stands at an address.
fn window_word(
    layout: Layout<'_>,
    address: u32,
    named: Named,
) -> Result<Option<WordReloc>, OutOfMemory>
    ghost s: { Stage }
    requires { IsLayout s.program s.parts s.exports layout }
    ensures { IfOk result (λ w. w ≡ window_word (loading s layout.entry) address named) }
{
    match named {
        Named::Symbol {
            kind,
            place,
            addend,
            symbol: at,
        } => {
            let Some(place) = address.checked_add(place) else {
                return Err(OutOfMemory);
            };
            let symbol = symbol_at(layout.program.tables.symbols.as_slice(), at);
            let value = symbol_value(layout, kind, addend, at, symbol)?;
            Ok(Some(WordReloc {
                to: WordPlace::Window(place),
                value,
            }))
        }
        Named::Type {
            place: _,
            number: _,
        } => Ok(None),
    }
}

/// Puts a word behind the others, if there is one.
pub(crate) fn add(words: &mut Seq<WordReloc>, word: Option<WordReloc>) -> Result<(), OutOfMemory>
    ensures { OnOk result (words.new ≡ words.old ++ option_to_list word) }
{
    match word {
        Some(word) => words.push(word),
        None => Ok(()),
    }
}

// Puts the words of a segment behind the others.
fn add_segment(
    words: &mut Seq<WordReloc>,
    layout: Layout<'_>,
    number: u32,
) -> Result<(), OutOfMemory>
    ghost s: { Stage }
    requires { IsLayout s.program s.parts s.exports layout }
    ensures { OnOk result (words.new ≡ words.old ++ segment_words (loading s layout.entry) number) }
{
    let address = address_at(layout.placed, number);
    for named in row_at(layout.program.tables, number) {
        let word = window_word(layout, address, *named)?;
        add(words, word)?;
    }
    Ok(())
}

/// Puts the words of all live data behind the others.
pub(crate) fn add_segments(
    words: &mut Seq<WordReloc>,
    layout: Layout<'_>,
    live: &[u32],
) -> Result<(), OutOfMemory>
    ghost s: { Stage }
    requires { IsLayout s.program s.parts s.exports layout }
    ensures { OnOk result (words.new ≡ words.old ++ flat_map (segment_words (loading s layout.entry)) (filter (is_solid_at (looked layout.entry)) live.now)) }
{
    for number in live {
        if is_solid(layout.placed, *number) {
            add_segment(words, layout, *number)?;
        }
    }
    Ok(())
}

// Whether a symbol is a definition of the link, or a foreign function or datum.
fn is_told_by(symbol: Symbol) -> bool
    ensures { result ≡ is_told_by symbol symbol.lead }
{
    match symbol.lead {
        Lead::Here(_) => true,
        Lead::Import(_) => is_addressed(symbol),
        Lead::Null | Lead::Nothing => false,
    }
}

// Whether a window names such a symbol.
fn is_told(symbols: &[Symbol], named: Named) -> bool
    ensures { result ≡ is_told symbols.now named }
{
    match named {
        Named::Symbol {
            kind: _,
            place: _,
            addend: _,
            symbol,
        } => is_told_by(symbol_at(symbols, symbol)),
        Named::Type {
            place: _,
            number: _,
        } => true,
    }
}

// Whether all of these windows do.
fn row_is_told(symbols: &[Symbol], row: &[Named]) -> bool
    ensures { result ≡ list_all (is_told symbols.now) row.now }
{
    row.iter().all(
        |named: &Named| -> bool
            ensures { result ≡ is_told symbols.entry.now named.now }
        { is_told(symbols, *named) },
    )
}

// Whether all windows of the part of a number do, if it is placed.
fn part_is_told(layout: Layout<'_>, number: u32) -> bool
    ensures { result ≡ told_part (looked layout.entry) number }
{
    let tables = layout.program.tables;
    !is_solid(layout.placed, number)
        || row_is_told(tables.symbols.as_slice(), row_at(tables, number))
}

/// Whether all windows of live data do. Objects are refused that have others.
pub(crate) fn all_are_told(layout: Layout<'_>, live: &[u32]) -> bool
    ensures { result ≡ list_all (told_part (looked layout.entry)) live.now }
{
    live.iter().all(
        |number: &u32| -> bool
            ensures { result ≡ told_part (looked layout.entry) number.now }
        { part_is_told(layout, *number) },
    )
}
