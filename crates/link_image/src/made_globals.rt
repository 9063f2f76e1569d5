//! The global section (Core 5.5.9).
ghost use Rattle.std.specs.Prelude.{◌≡◌, ◌++◌, ◌==◌, if◌then◌else◌, true, false, filter_map, drop, IfOk, OnOk};
ghost use Rattle.std.specs.Option.{option_to_list};
ghost use Rattle.made_symbols.specs.Made.{stack_pointer};
ghost use Rattle.link_program.specs.reloc_apply.Windows.{signed32};
ghost use Rattle.link_program.specs.link_rules.ModeOf.{mode_of};
ghost use Rattle.link_program.specs.link_rules.Marks.{by_mode};
ghost use Rattle.link_program.specs.link_rules.Program.{chunk_at};
ghost use Rattle.link_program.specs.link_rules.Values as values;
ghost use Rattle.link_program.specs.link_rules.Output.{layout as laid_out};
ghost use Rattle.link_program.specs.Live.{Stage};
ghost use Rattle.link_program.specs.Look.{chunk_number};
ghost use Rattle.link_layout.specs.Seen.{Looked};
ghost use Rattle.link_layout.specs.Layout.{looked, IsLayout};
ghost use Rattle.link_image.specs.Sections.{constant, entry_of, cell_seen, content_seen, part_global, global_made};

use link_layout::Layout;
use link_program::{
    Content, Definition, FunctionKey, GlobalKey, GotKey, Tables, chunk_number, function_of, part_at,
};
use linking_section::SymbolKind;
use made_symbols::{Mode, STACK_POINTER};
use mark_bits::{Chunk, kinds as chunk_kinds};
use std::alloc::Global;
use wasm_module::ModuleGlobal;
use wasm_types::{ConstExpr, GlobalType, ValType};
use wl_base::{OutOfMemory, Seq};

/// A number below 2^32 as the signed number of the same bits. Another one is answered as want of memory.
pub(crate) fn signed(n: u64) -> Result<i32, OutOfMemory>
    ensures { IfOk result (λ i. i ≡ signed32 n) }
{
    match u32::try_from(n) {
        Ok(bits) => Ok(bits.cast_signed()),
        Err(_) => Err(OutOfMemory),
    }
}

// A global that begins as this number.
fn constant(var: bool, n: u64) -> Result<ModuleGlobal, OutOfMemory>
    ensures { IfOk result (λ g. g ≡ constant var n) }
{
    let n = signed(n)?;
    Ok(ModuleGlobal {
        kind: GlobalType {
            kind: ValType::I32,
            var,
        },
        value: ConstExpr::I32(n),
    })
}

// The address of a definition.
fn address(layout: Layout<'_>, definition: Definition) -> u64
    ghost s: { Stage }
    requires { IsLayout s.program s.parts s.exports layout }
    ensures { result ≡ values.address_of (mode_of s.program.plan) (laid_out (mode_of s.program.plan) s.program s.parts s.exports) (entry_of definition) }
{
    layout.address(definition)
}

// What a cell of an address holds.
fn cell(layout: Layout<'_>, key: GotKey) -> u64
    ghost s: { Stage }
    requires { IsLayout s.program s.parts s.exports layout }
    ensures { result ≡ cell_seen (values.address_of (mode_of s.program.plan) (laid_out (mode_of s.program.plan) s.program s.parts s.exports)) layout.entry.numbering.now key }
{
    match key {
        GotKey::Here(definition) => {
            if definition.kind == SymbolKind::Datum {
                address(layout, definition)
            } else {
                u64::from(layout.numbering.slot(function_of(definition)))
            }
        }
        GotKey::Import(number) => u64::from(layout.numbering.slot(FunctionKey::Import(number))),
        GotKey::Null(_) => 0,
    }
}

// A global of an object.
fn content(content: Content) -> Option<ModuleGlobal>
    ensures { result ≡ content_seen content }
{
    match content {
        Content::Global { kind, value } => Some(ModuleGlobal { kind, value }),
        Content::Function(_) | Content::Segment { align: _, flags: _ } | Content::Made => None,
    }
}

// The global of a chunk.
fn own(tables: &Tables, chunk: Chunk) -> Option<ModuleGlobal>
    ensures { (k : Looked) → k.tables ≡ tables.now → result ≡ part_global k (chunk_number tables.now.chunks chunk) }
{
    match chunk_number(&tables.chunks, chunk) {
        Some(number) => content(part_at(tables, number).content),
        None => None,
    }
}

// The linker's global of a number: `__stack_pointer` begins at the top of the stack, the others are 0.
fn linker_global(layout: Layout<'_>, index: u32) -> Result<ModuleGlobal, OutOfMemory>
    ensures { IfOk result (λ g. g ≡ constant (index == stack_pointer) (if index == stack_pointer then layout.entry.placed.now.places.stack_high else 0)) }
{
    let top = if index == STACK_POINTER {
        layout.placed.places.stack_high
    } else {
        0
    };
    let made = constant(index == STACK_POINTER, u64::from(top))?;
    Ok(made)
}

// The global of a cell of an address. That of a shared output holds its address once the output is loaded.
fn made_cell(layout: Layout<'_>, mode: Mode, key: GotKey) -> Result<ModuleGlobal, OutOfMemory>
    ghost s: { Stage }
    requires { IsLayout s.program s.parts s.exports layout }
    ensures { IfOk result (λ g. g ≡ by_mode mode (constant false (cell_seen (values.address_of (mode_of s.program.plan) (laid_out (mode_of s.program.plan) s.program s.parts s.exports)) layout.entry.numbering.now key)) (constant true 0)) }
{
    match mode {
        Mode::Plain => constant(false, cell(layout, key)),
        Mode::Shared => constant(true, 0),
    }
}

// A global that is defined.
fn global(
    layout: Layout<'_>,
    mode: Mode,
    key: GlobalKey,
) -> Result<Option<ModuleGlobal>, OutOfMemory>
    ghost s: { Stage }
    requires { IsLayout s.program s.parts s.exports layout }
    ensures { IfOk result (λ g. g ≡ global_made mode (values.address_of (mode_of s.program.plan) (laid_out (mode_of s.program.plan) s.program s.parts s.exports)) (looked layout.entry) key) }
{
    match key {
        GlobalKey::Import(_) => Ok(None),
        GlobalKey::Own { input: 0, index } => {
            let made = linker_global(layout, index)?;
            Ok(Some(made))
        }
        GlobalKey::Own { input, index } => {
            let chunk = Chunk {
                input,
                kind: chunk_kinds::GLOBAL,
                index,
            };
            Ok(own(layout.program.tables, chunk))
        }
        GlobalKey::Got(key) => {
            let made = made_cell(layout, mode, key)?;
            Ok(Some(made))
        }
        GlobalKey::Datum(definition) => {
            let made = constant(false, address(layout, definition))?;
            Ok(Some(made))
        }
    }
}

fn add(globals: &mut Seq<ModuleGlobal>, global: Option<ModuleGlobal>) -> Result<(), OutOfMemory>
    ensures { OnOk result (globals.new ≡ globals.old ++ option_to_list global) }
{
    match global {
        Some(global) => globals.push(global),
        None => Ok(()),
    }
}

/// The defined globals.
pub(crate) fn globals(
    alloc: Global,
    layout: Layout<'_>,
    mode: Mode,
) -> Result<Seq<ModuleGlobal>, OutOfMemory>
    ghost s: { Stage }
    requires { IsLayout s.program s.parts s.exports layout }
    ensures { IfOk result (λ globals. globals ≡ filter_map (global_made mode (values.address_of (mode_of s.program.plan) (laid_out (mode_of s.program.plan) s.program s.parts s.exports)) (looked layout.entry)) layout.entry.numbering.now.globals) }
{
    let keys = layout.numbering.globals();
    let mut globals = Seq::new(alloc);
    for key in keys {
        let global = global(layout, mode, *key)?;
        add(&mut globals, global)?;
    }
    Ok(globals)
}
