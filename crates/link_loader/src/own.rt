//! The words of the link's own cells of addresses.
ghost use Rattle.std.specs.Prelude.{◌≡◌, ◌++◌, filter_map, drop, IfOk, OnOk};
ghost use Rattle.link_program.specs.Live.{Stage};
ghost use Rattle.link_layout.specs.Layout.{IsLayout};
ghost use Rattle.link_loader.specs.Words.{is_function_cell, cell_value, cell_word};
ghost use Rattle.link_loader.specs.Layout.{loading};

use crate::windows::{add, address};
use dylink_out::{WordPlace, WordReloc, WordValue};
use link_layout::Layout;
use link_program::{FunctionKey, GlobalKey, GotKey, function_of};
use linking_section::SymbolKind;
use wl_base::{OutOfMemory, Seq};

// Whether a cell holds a function's slot.
fn is_function_cell(key: GotKey) -> bool
    ensures { result ≡ is_function_cell key }
{
    match key {
        GotKey::Here(definition) => definition.kind == SymbolKind::Function,
        GotKey::Import(_) => true,
        GotKey::Null(_) => false,
    }
}

// What a cell holds.
fn cell_value(layout: Layout<'_>, key: GotKey) -> u64
    ghost s: { Stage }
    requires { IsLayout s.program s.parts s.exports layout }
    ensures { result ≡ cell_value (loading s layout.entry) key }
{
    match key {
        GotKey::Here(definition) => {
            if definition.kind == SymbolKind::Datum {
                address(layout, definition)
            } else {
                u64::from(layout.numbering.slot(function_of(definition)))
            }
        }
        GotKey::Import(number) => u64::from(layout.numbering.slot(FunctionKey::Import(number))),
        GotKey::Null(_) => 0,
    }
}

// The word of a cell. A value of 2^32 and more is answered as want of memory.
fn cell_word(layout: Layout<'_>, key: GlobalKey) -> Result<Option<WordReloc>, OutOfMemory>
    ghost s: { Stage }
    requires { IsLayout s.program s.parts s.exports layout }
    ensures { IfOk result (λ w. w ≡ cell_word (loading s layout.entry) key) }
{
    let GlobalKey::Got(got) = key else {
        return Ok(None);
    };
    let Ok(held) = u32::try_from(cell_value(layout, got)) else {
        return Err(OutOfMemory);
    };
    let value = if is_function_cell(got) {
        WordValue::OwnFunction(held)
    } else {
        WordValue::OwnDatum(held)
    };
    Ok(Some(WordReloc {
        to: WordPlace::Got(layout.numbering.global_number(key)),
        value,
    }))
}

/// Puts the words of all own cells behind the others.
pub(crate) fn add_cells(words: &mut Seq<WordReloc>, layout: Layout<'_>) -> Result<(), OutOfMemory>
    ghost s: { Stage }
    requires { IsLayout s.program s.parts s.exports layout }
    ensures { OnOk result (words.new ≡ words.old ++ filter_map (cell_word (loading s layout.entry)) layout.entry.numbering.now.globals) }
{
    for key in layout.numbering.globals() {
        let word = cell_word(layout, *key)?;
        add(words, word)?;
    }
    Ok(())
}
