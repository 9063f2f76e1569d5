//! What stands in the vectors of a module's sections. There a constant expression may be a
//! global.get.
ghost use Rattle.std.specs.Prelude.{true, OnOk};
ghost use Rattle.wasm_instr.specs.wasm_grammar.Writers.{Appends, Writes, Keeps};
ghost use Rattle.wasm_module.specs.Parts.{SpellsGlobal, SpellsExport, SpellsElement, SpellsDataSegment};
ghost use Rattle.wasm_module.specs.PartReading.{global_at, export_at, element_at, data_segment_at};
ghost use Rattle.wasm_module.specs.PartLaws.{global_reader, export_reader, element_reader, data_segment_reader};

use crate::entries::{export_at, global_at};
use crate::parts::{DataSegment, Element, Export, ModuleGlobal};
use crate::segments::{data_segment_at, element_at};
use std::alloc::Global;
use wasm_grammar::{Form, ReadFault, Spell, put_byte, put_bytes, put_u32, put_vector};
use wasm_types::{put_const_expr, put_global_type};
use wl_base::{OutOfMemory, Seq};

impl Form for ModuleGlobal {
    ghost spells = { SpellsGlobal true };

    ghost read_at = { global_at true };

    ghost exact = { global_reader true };

    fn form_at(
        _alloc: Global,
        end: usize,
        bytes: &[u8],
    ) -> Result<(ModuleGlobal, &[u8]), ReadFault> {
        Ok(global_at(true, end, bytes)?)
    }
}

impl Spell for ModuleGlobal {
    fn put(&self, to: &mut Seq<u8>) -> Result<(), OutOfMemory> {
        put_global_type(to, &self.kind)?;
        put_const_expr(to, &self.value)
    }
}

impl Form for Export {
    ghost spells = { SpellsExport };

    ghost read_at = { export_at };

    ghost exact = { export_reader };

    fn form_at(alloc: Global, end: usize, bytes: &[u8]) -> Result<(Export, &[u8]), ReadFault> {
        export_at(alloc, end, bytes)
    }
}

impl Spell for Export {
    fn put(&self, to: &mut Seq<u8>) -> Result<(), OutOfMemory> {
        put_bytes(to, self.name.as_slice())?;
        put_byte(to, self.kind)?;
        put_u32(to, self.index)
    }
}

impl Form for Element {
    ghost spells = { SpellsElement true };

    ghost read_at = { element_at true };

    ghost exact = { element_reader true };

    fn form_at(alloc: Global, end: usize, bytes: &[u8]) -> Result<(Element, &[u8]), ReadFault> {
        element_at(alloc, true, end, bytes)
    }
}

/// Appends the shortest spelling (Core 5.5.12).
#[tactic(auto, using(wasm_grammar::specs::WriterLaws::keeps_then))]
fn put_element(to: &mut Seq<u8>, e: &Element) -> Result<(), OutOfMemory>
    ensures ok { OnOk result (Writes (SpellsElement true e.now) to.old to.new) }
    ensures keeps { Keeps to.old to.new }
{
    match e.table {
        None => {
            put_u32(to, 0)?;
            put_const_expr(to, &e.offset)?;
            put_vector(to, e.functions.as_slice())
        }
        Some(table) => {
            put_u32(to, 2)?;
            put_u32(to, table)?;
            put_const_expr(to, &e.offset)?;
            put_byte(to, 0)?;
            put_vector(to, e.functions.as_slice())
        }
    }
}

impl Spell for Element {
    fn put(&self, to: &mut Seq<u8>) -> Result<(), OutOfMemory> {
        put_element(to, self)
    }
}

impl Form for DataSegment {
    ghost spells = { SpellsDataSegment true };

    ghost read_at = { data_segment_at true };

    ghost exact = { data_segment_reader true };

    fn form_at(alloc: Global, end: usize, bytes: &[u8]) -> Result<(DataSegment, &[u8]), ReadFault> {
        data_segment_at(alloc, true, end, bytes)
    }
}

/// Appends the shortest spelling (Core 5.5.14).
#[tactic(auto, using(wasm_grammar::specs::WriterLaws::keeps_then))]
fn put_data_segment(to: &mut Seq<u8>, s: &DataSegment) -> Result<(), OutOfMemory>
    ensures ok { OnOk result (Appends (SpellsDataSegment true s.now) to.old to.new) }
    ensures keeps { Keeps to.old to.new }
{
    match s.memory {
        None => {
            put_u32(to, 0)?;
            put_const_expr(to, &s.offset)?;
            put_bytes(to, s.bytes.as_slice())
        }
        Some(memory) => {
            put_u32(to, 2)?;
            put_u32(to, memory)?;
            put_const_expr(to, &s.offset)?;
            put_bytes(to, s.bytes.as_slice())
        }
    }
}

impl Spell for DataSegment {
    fn put(&self, to: &mut Seq<u8>) -> Result<(), OutOfMemory> {
        put_data_segment(to, self)
    }
}
