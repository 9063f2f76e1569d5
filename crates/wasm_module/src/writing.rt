//! Writing a module.
ghost use Rattle.std.specs.Prelude.{[], None, IfOk, OnOk};
ghost use Rattle.wasm_instr.specs.wasm_grammar.Grammar.{SpellsByte, SpellsBytes, SpellsSized, SpellsVector, Then};
ghost use Rattle.wasm_instr.specs.wasm_grammar.Writers.{Appends, Writes};
ghost use Rattle.wasm_instr.specs.Placeless.{SpellsPlaceless};
ghost use Rattle.wasm_module.specs.Sections.{SpellsSection, SpellsGiven};
ghost use Rattle.wasm_module.specs.Modules.{IsModuleButPlaces};

use crate::structure::Module;
use std::alloc::Global;
use wasm_grammar::{Spell, put_byte, put_bytes, put_count, put_itself, put_u32, put_vector};
use wasm_instr::{Body, put_body};
use wl_base::{OutOfMemory, Seq};

/// Appends a section that has these contents: its id, their size, and they (Core 5.5.2).
fn put_contents(to: &mut Seq<u8>, id: u8, contents: &[u8]) -> Result<(), OutOfMemory>
    ensures { OnOk result (Appends (Then (SpellsByte id) (SpellsBytes contents.now)) to.old to.new) }
{
    put_byte(to, id)?;
    put_bytes(to, contents)
}

/// Appends the section of these items (Core 5.5.2), where there are any.
fn put_section<T: Spell>(
    alloc: Global,
    to: &mut Seq<u8>,
    id: u8,
    items: &[T],
) -> Result<(), OutOfMemory>
    ensures { OnOk result (Writes (SpellsSection id [] (SpellsVector T.spells) items.now) to.old to.new) }
{
    if items.is_empty() {
        return Ok(());
    }
    let mut contents = Seq::new(alloc);
    put_vector(&mut contents, items)?;
    put_contents(to, id, contents.as_slice())
}

/// Appends the data count (Core 5.5.15), where it is given.
fn put_data_count(
    alloc: Global,
    to: &mut Seq<u8>,
    data_count: Option<u32>,
) -> Result<(), OutOfMemory>
    ensures { OnOk result (Writes (SpellsSection 12 None SpellsGiven data_count) to.old to.new) }
{
    match data_count {
        None => Ok(()),
        Some(count) => {
            let mut contents = Seq::new(alloc);
            put_u32(&mut contents, count)?;
            put_contents(to, 12, contents.as_slice())
        }
    }
}

/// Appends the size of a body and the body (Core 5.5.13). Its bytes are made in `room`, which is
/// emptied first.
fn put_code(to: &mut Seq<u8>, room: &mut Seq<u8>, body: &Body) -> Result<(), OutOfMemory>
    ensures { OnOk result (Writes (SpellsSized (SpellsPlaceless body.now)) to.old to.new) }
{
    room.truncate(0);
    put_body(room, body)?;
    put_bytes(to, room.as_slice())
}

/// Appends the code of these functions.
fn put_codes(alloc: Global, to: &mut Seq<u8>, bodies: &[Body]) -> Result<(), OutOfMemory>
    ensures { OnOk result (Writes (SpellsVector (λ b. SpellsSized (SpellsPlaceless b)) bodies.now) to.old to.new) }
{
    put_count(to, bodies.len())?;
    let mut room = Seq::new(alloc);
    for body in bodies {
        put_code(to, &mut room, body)?;
    }
    Ok(())
}

/// Appends the code section (Core 5.5.13), where there are bodies.
fn put_code_section(alloc: Global, to: &mut Seq<u8>, bodies: &[Body]) -> Result<(), OutOfMemory>
    ensures { OnOk result (Writes (SpellsSection 10 [] (SpellsVector (λ b. SpellsSized (SpellsPlaceless b))) bodies.now) to.old to.new) }
{
    if bodies.is_empty() {
        return Ok(());
    }
    let mut contents = Seq::new(alloc);
    put_codes(alloc, &mut contents, bodies)?;
    put_contents(to, 10, contents.as_slice())
}

/// The shortest bytes of the module (Core 5.5.16). It has no custom sections, and no section that
/// would have nothing. The places in its bodies are not looked at.
pub fn write(alloc: Global, m: &Module) -> Result<Seq<u8>, OutOfMemory>
    // Where the module has a spelling at all, this is one, up to the places in the bodies, and none
    // is shorter.
    ensures { IfOk result (λ bytes. Writes (IsModuleButPlaces m.now) [] bytes) }
{
    let mut to = Seq::new(alloc);
    put_itself(&mut to, b"\0asm\x01\0\0\0".as_slice())?;
    put_section(alloc, &mut to, 1, m.types.as_slice())?;
    put_section(alloc, &mut to, 2, m.imports.as_slice())?;
    put_section(alloc, &mut to, 3, m.functions.as_slice())?;
    put_section(alloc, &mut to, 4, m.tables.as_slice())?;
    put_section(alloc, &mut to, 5, m.memories.as_slice())?;
    put_section(alloc, &mut to, 6, m.globals.as_slice())?;
    put_section(alloc, &mut to, 7, m.exports.as_slice())?;
    put_section(alloc, &mut to, 9, m.elements.as_slice())?;
    put_data_count(alloc, &mut to, m.data_count)?;
    put_code_section(alloc, &mut to, m.bodies.as_slice())?;
    put_section(alloc, &mut to, 11, m.data_segments.as_slice())?;
    Ok(to)
}
