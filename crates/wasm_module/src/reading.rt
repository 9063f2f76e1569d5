//! Reading a module.
ghost use Rattle.std.specs.Prelude.{◌≡◌, IfOk, Ok};
ghost use Rattle.wasm_instr.specs.wasm_grammar.Fault.{Reads, Gives};
ghost use Rattle.wasm_sections.specs.Sections.{header};
ghost use Rattle.wasm_module.specs.declared.structure.Module.{Module};
ghost use Rattle.wasm_module.specs.Modules.{IsModule};
ghost use Rattle.wasm_module.specs.ModuleReading.{behind, is_count, added_up, module_at, module_of, Tells};

use crate::codes::next_codes_at;
use crate::fault::ModuleFault;
use crate::sections::{customs_at, next_at, next_count_at};
use crate::structure::Module;
use std::alloc::Global;
use wasm_grammar::{ReadFault, Stop, none_at};

/// The bytes after the header (Core 5.5.16).
fn header_at(end: usize, bytes: &[u8]) -> Result<&[u8], Stop>
    ensures { Reads (λ x. x.now) result (behind end header bytes.now) }
{
    match bytes {
        [0x00, 0x61, 0x73, 0x6d, 0x01, 0x00, 0x00, 0x00, rest @ ..] => Ok(rest),
        _ => Err(Stop::Broken(end)),
    }
}

/// Whether a data count that is given is this number.
fn is_count(data_count: Option<u32>, segments: usize) -> bool
    ensures { result ≡ is_count data_count segments }
{
    match data_count {
        None => true,
        Some(count) => count as usize == segments,
    }
}

/// The module, where its numbers add up.
fn added_up(end: usize, m: Module) -> Result<Module, Stop>
    ensures { result ≡ added_up end m }
{
    if m.functions.len() == m.bodies.len() && is_count(m.data_count, m.data_segments.len()) {
        Ok(m)
    } else {
        Err(Stop::Broken(end))
    }
}

/// The module that these bytes are, which reach to this end.
#[tactic(auto, unfolding(crate::specs::ModuleReading::module_at))]
fn module_at(alloc: Global, end: usize, bytes: &[u8]) -> Result<Module, ReadFault>
    ensures { Gives (λ m. m) result (module_at end bytes.now) }
{
    let start = header_at(end, bytes)?;
    let rest = customs_at(end, start)?;
    let (types, rest) = next_at(alloc, 1, end, rest)?;
    let (imports, rest) = next_at(alloc, 2, end, rest)?;
    let (functions, rest) = next_at(alloc, 3, end, rest)?;
    let (tables, rest) = next_at(alloc, 4, end, rest)?;
    let (memories, rest) = next_at(alloc, 5, end, rest)?;
    let (globals, rest) = next_at(alloc, 6, end, rest)?;
    let (exports, rest) = next_at(alloc, 7, end, rest)?;
    let (elements, rest) = next_at(alloc, 9, end, rest)?;
    let (data_count, rest) = next_count_at(end, rest)?;
    let (bodies, rest) = next_codes_at(alloc, end, rest)?;
    let (data_segments, rest) = next_at(alloc, 11, end, rest)?;
    none_at(end, rest)?;
    let m = Module {
        types,
        imports,
        functions,
        tables,
        memories,
        globals,
        exports,
        elements,
        data_count,
        bodies,
        data_segments,
    };
    Ok(added_up(end, m)?)
}

/// The module that these bytes are (Core 5.5.16). Custom sections are skipped, but each has to begin
/// with a name that is UTF-8.
///
/// Bytes outside the grammar are no module, and neither are those with an item that isn't linked: a
/// start section, a section of tags, a segment that is no active one, or another opcode, value type,
/// limits or constant expression than those that are linked. The places in a body are counted from
/// its first byte.
pub fn read(alloc: Global, bytes: &[u8]) -> Result<Module, ModuleFault>
    // What is read is a module, spelled by these bytes.
    ensures found { IfOk result (λ m. IsModule m bytes.now) }
    // A module is read, unless memory runs out.
    ensures only { (m : Module) → IsModule m bytes.now → Tells result (Ok m) }
    // What reading from left to right gives.
    ensures exact { Tells result (module_of bytes.now) }
{
    Ok(module_at(alloc, bytes.len(), bytes)?)
}
