//! The sections of a wrapped module, and the bytes that are kept between them.
ghost use Rattle.std.specs.Prelude.{◌≡◌, ◌+◌, ◌++◌, List, [], OnOk, length, map};
ghost use Rattle.wasm_module.specs.wasm_instr.declared.body.Body.{Body};
ghost use Rattle.wasm_module.specs.wasm_instr.wasm_grammar.Grammar.{SpellsByte, SpellsU32, SpellsBytes, SpellsMany, SpellsVector, Then};
ghost use Rattle.wasm_module.specs.wasm_instr.wasm_grammar.Writers.{HasSpelling};
ghost use Rattle.wasm_module.specs.Parts.{SpellsExport};
ghost use Rattle.wasm_module.specs.Sections.{SpellsSection};
ghost use Rattle.export_wrappers.specs.Wrapped.{body_of};
ghost use Rattle.export_wrappers.specs.Written.{Puts, SpellsCode, Spliced};
ghost use Rattle.export_wrappers.specs.Cuts.{seen_kept};

use crate::cutting::Lent;
use crate::steps::put_wrappers;
use crate::wrapper::Wrapper;
use std::alloc::Global;
use wasm_grammar::{Spell, put_byte, put_bytes, put_count, put_itself, put_vector};
use wasm_module::Export;
use wl_base::{OutOfMemory, Seq};

/// Appends a section that has these contents: its id, their size, and they (Core 5.5.2).
fn put_contents(to: &mut Seq<u8>, id: u8, contents: &[u8]) -> Result<(), OutOfMemory>
    ensures { OnOk result (Puts (Then (SpellsByte id) (SpellsBytes contents.now)) to.old to.new) }
{
    put_byte(to, id)?;
    put_bytes(to, contents)
}

/// Appends the section of these items (Core 5.5.2), where there are any.
fn put_section<T: Spell>(
    alloc: Global,
    to: &mut Seq<u8>,
    id: u8,
    items: &[T],
) -> Result<(), OutOfMemory>
    ensures { OnOk result (HasSpelling (SpellsMany T.spells items.now) → Puts (SpellsSection id [] (SpellsVector T.spells) items.now) to.old to.new) }
{
    if items.is_empty() {
        return Ok(());
    }
    let mut contents = Seq::new(alloc);
    put_vector(&mut contents, items)?;
    put_contents(to, id, contents.as_slice())
}

/// Appends so many bodies, and those of wrappers behind them.
fn put_codes(
    alloc: Global,
    to: &mut Seq<u8>,
    total: usize,
    bodies: &[u8],
    ctors: u32,
    dtors: Option<u32>,
    wrappers: &[Wrapper],
) -> Result<(), OutOfMemory>
    ensures { OnOk result ((bs : List Body) → length bs + length wrappers.now ≡ total → SpellsMany SpellsCode bs bodies.now
        → Puts (SpellsVector SpellsCode (bs ++ map (body_of ctors dtors) wrappers.now)) to.old to.new) }
{
    put_count(to, total)?;
    put_itself(to, bodies)?;
    put_wrappers(alloc, to, ctors, dtors, wrappers)
}

/// Appends the code section (Core 5.5.13), where there are bodies.
fn put_code_section(
    alloc: Global,
    to: &mut Seq<u8>,
    count: u32,
    bodies: &[u8],
    ctors: u32,
    dtors: Option<u32>,
    wrappers: &[Wrapper],
) -> Result<(), OutOfMemory>
    ensures { OnOk result ((bs : List Body) → length bs ≡ count → SpellsMany SpellsCode bs bodies.now
        → Puts (SpellsSection 10 [] (SpellsVector SpellsCode) (bs ++ map (body_of ctors dtors) wrappers.now)) to.old to.new) }
{
    let Some(total) = (count as usize).checked_add(wrappers.len()) else {
        return Err(OutOfMemory);
    };
    if total == 0 {
        return Ok(());
    }
    let mut contents = Seq::new(alloc);
    put_codes(alloc, &mut contents, total, bodies, ctors, dtors, wrappers)?;
    put_contents(to, 10, contents.as_slice())
}

/// Appends the module with these functions and exports, and with these wrappers behind its bodies.
pub fn put_module(
    alloc: Global,
    to: &mut Seq<u8>,
    kept: Lent<'_>,
    functions: &[u32],
    exports: &[Export],
    ctors: u32,
    dtors: Option<u32>,
    wrappers: &[Wrapper],
) -> Result<(), OutOfMemory>
    ensures { OnOk result ((bs : List Body) → length bs ≡ kept.entry.count → SpellsMany SpellsCode bs kept.entry.bodies.now
        → HasSpelling (SpellsMany SpellsU32 functions.now) → HasSpelling (SpellsMany SpellsExport exports.now)
        → Puts (Spliced (seen_kept kept.entry) functions.now exports.now (bs ++ map (body_of ctors dtors) wrappers.now)) to.old to.new) }
{
    put_itself(to, kept.before)?;
    put_section(alloc, to, 3, functions)?;
    put_itself(to, kept.between)?;
    put_section(alloc, to, 7, exports)?;
    put_itself(to, kept.after)?;
    put_code_section(alloc, to, kept.count, kept.bodies, ctors, dtors, wrappers)?;
    put_itself(to, kept.rest)
}
