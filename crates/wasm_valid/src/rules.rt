//! The rules of a module outside its bodies (Core 3.2 and 3.4).
ghost use Rattle.std.specs.Prelude.{◌≡◌, IfOk, map, option_copied};
ghost use Rattle.std.specs.List.{list_all};
ghost use Rattle.std.specs.Str.{bytes_eq};
ghost use Rattle.valid_rules.specs.Reading.{same_type};
ghost use Rattle.wasm_valid.specs.Rules.{at_most, in_order, within, is_memory, is_const, has_type, below, is_function_table, global_stands, count_of, export_stands, element_stands, segment_stands, all_differ, memories_stand, tables_stand, parts_stand, stands};

use crate::spaces::Spaces;
use indexmap::IndexSet;
use std::alloc::Global;
use wasm_module::{DataSegment, Element, Export, Module, ModuleGlobal};
use wasm_types::{ConstExpr, GlobalType, Limits, TableType, ValType};
use wl_base::OutOfMemory;

/// The most pages of a memory (Core 3.2.5).
const MAX_PAGES: u32 = 65_536;

/// An export of a function (Core 5.5.10).
const FUNCTION: u8 = 0;
/// An export of a table.
const TABLE: u8 = 1;
/// An export of a memory.
const MEMORY: u8 = 2;
/// An export of a global.
const GLOBAL: u8 = 3;

/// Whether the least is at most the greatest, where there is one.
fn at_most(least: u32, most: Option<u32>) -> bool
    ensures { result ≡ at_most least most }
{
    match most {
        None => true,
        Some(most) => least <= most,
    }
}

/// Whether limits are in order (Core 3.2.1).
fn in_order(limits: Limits) -> bool
    ensures { result ≡ in_order limits }
{
    at_most(limits.min, limits.max)
}

/// Whether the greatest is at most the bound, where there is one.
fn within(bound: u32, most: Option<u32>) -> bool
    ensures { result ≡ within bound most }
{
    match most {
        None => true,
        Some(most) => most <= bound,
    }
}

/// Whether these are limits of a memory (Core 3.2.5).
fn is_memory(limits: Limits) -> bool
    ensures { result ≡ is_memory limits }
{
    in_order(limits) && limits.min <= MAX_PAGES && within(MAX_PAGES, limits.max)
}

/// Whether two types of values are the same.
fn same(a: ValType, b: ValType) -> bool
    ensures { result ≡ same_type a b }
{
    match (a, b) {
        (ValType::I32, ValType::I32) => true,
        (ValType::I64, ValType::I64) => true,
        (ValType::F32, ValType::F32) => true,
        (ValType::F64, ValType::F64) => true,
        _ => false,
    }
}

/// Whether a global is there, is const, and has this type.
fn is_const(kind: ValType, global: Option<&GlobalType>) -> bool
    ensures { result ≡ is_const kind (option_copied global.entry) }
{
    match global {
        None => false,
        Some(global) => !global.var && same(global.kind, kind),
    }
}

/// Whether a constant expression has this type (Core 3.3.10); these are the globals that are imported.
fn has_type(globals: &[GlobalType], kind: ValType, value: ConstExpr) -> bool
    ensures { result ≡ has_type globals.now kind value }
{
    match value {
        ConstExpr::I32(_) => same(ValType::I32, kind),
        ConstExpr::I64(_) => same(ValType::I64, kind),
        ConstExpr::Get(index) => is_const(kind, globals.get(index as usize)),
    }
}

/// Whether a table is there and of funcref.
fn is_function_table(table: Option<&TableType>) -> bool
    ensures { result ≡ is_function_table (option_copied table.entry) }
{
    match table {
        None => false,
        Some(table) => table.funcref,
    }
}

/// A global's first value has its type (Core 3.4.4).
fn global_stands(s: &Spaces, global: ModuleGlobal) -> bool
    ensures { result ≡ global_stands s.now global }
{
    has_type(
        s.imported_globals.as_slice(),
        global.kind.kind,
        global.value,
    )
}

/// How many there are of what an export names.
fn count_of(s: &Spaces, kind: u8) -> usize
    ensures { result ≡ count_of s.now kind }
{
    match kind {
        FUNCTION => s.functions.len(),
        TABLE => s.tables.len(),
        MEMORY => s.memories.len(),
        GLOBAL => s.globals.len(),
        _ => 0,
    }
}

/// What is exported is there (Core 3.4.8).
fn export_stands(s: &Spaces, export: &Export) -> bool
    ensures { result ≡ export_stands s.now export.now }
{
    (export.index as usize) < count_of(s, export.kind)
}

/// Whether all indexes are in range.
fn all_below(count: usize, indexes: &[u32]) -> bool
    ensures { result ≡ list_all (below count) indexes.now }
{
    indexes.iter().all(|index| (*index as usize) < count)
}

/// An element segment (Core 3.4.5): its table is there and of funcref, its offset is an i32, and its
/// functions are there.
fn element_stands(s: &Spaces, element: &Element) -> bool
    ensures { result ≡ element_stands s.now element.now }
{
    is_function_table(s.tables.get(element.table.unwrap_or(0) as usize))
        && has_type(s.imported_globals.as_slice(), ValType::I32, element.offset)
        && all_below(s.functions.len(), element.functions.as_slice())
}

/// A data segment (Core 3.4.6): its memory is there, and its offset is an i32.
fn segment_stands(s: &Spaces, segment: &DataSegment) -> bool
    ensures { result ≡ segment_stands s.now segment.now }
{
    (segment.memory.unwrap_or(0) as usize) < s.memories.len()
        && has_type(s.imported_globals.as_slice(), ValType::I32, segment.offset)
}

/// There is at most one memory (Core 3.4.10), and each has its limits in order.
fn memories_stand(memories: &[Limits]) -> bool
    ensures { result ≡ memories_stand memories.now }
{
    memories.len() <= 1 && all_memories(memories)
}

/// Each memory has its limits in order.
fn all_memories(memories: &[Limits]) -> bool
    ensures { result ≡ list_all is_memory memories.now }
{
    memories.iter().all(|limits| is_memory(*limits))
}

/// Each table has its limits in order (Core 3.2.4).
fn tables_stand(tables: &[TableType]) -> bool
    ensures { result ≡ tables_stand tables.now }
{
    tables.iter().all(|table| in_order(table.limits))
}

/// Each global stands.
fn globals_stand(s: &Spaces, globals: &[ModuleGlobal]) -> bool
    ensures { result ≡ list_all (global_stands s.now) globals.now }
{
    globals.iter().all(|global| global_stands(s, *global))
}

/// Each export stands.
fn exports_stand(s: &Spaces, exports: &[Export]) -> bool
    ensures { result ≡ list_all (export_stands s.now) exports.now }
{
    exports.iter().all(|export| export_stands(s, export))
}

/// Each element segment stands.
fn elements_stand(s: &Spaces, elements: &[Element]) -> bool
    ensures { result ≡ list_all (element_stands s.now) elements.now }
{
    elements.iter().all(|element| element_stands(s, element))
}

/// Each data segment stands.
fn segments_stand(s: &Spaces, segments: &[DataSegment]) -> bool
    ensures { result ≡ list_all (segment_stands s.now) segments.now }
{
    segments.iter().all(|segment| segment_stands(s, segment))
}

/// Globals, exports and segments stand.
fn parts_stand(s: &Spaces, m: &Module) -> bool
    ensures { result ≡ parts_stand s.now m.now }
{
    globals_stand(s, m.globals.as_slice())
        && exports_stand(s, m.exports.as_slice())
        && elements_stand(s, m.elements.as_slice())
        && segments_stand(s, m.data_segments.as_slice())
}

/// No two exports have one name (Core 3.4.10).
fn names_differ(alloc: Global, exports: &[Export]) -> Result<bool, OutOfMemory>
    ensures { IfOk result (λ differ. differ ≡ all_differ bytes_eq (map (λ e. e.name) exports.now)) }
{
    let mut seen = IndexSet::new(alloc);
    for export in exports {
        if !seen.insert(export.name.as_slice())? {
            return Ok(false);
        }
    }
    Ok(true)
}

/// Whether all rules hold but those of bodies (Core 3.4).
#[tactic(auto, unfolding(crate::specs::Rules::stands))]
pub fn stands(alloc: Global, s: &Spaces, m: &Module) -> Result<bool, OutOfMemory>
    ensures { IfOk result (λ so. so ≡ stands s.now m.now) }
{
    if !all_below(m.types.len(), s.functions.as_slice()) {
        return Ok(false);
    }
    if !memories_stand(s.memories.as_slice()) {
        return Ok(false);
    }
    if !tables_stand(s.tables.as_slice()) || !parts_stand(s, m) {
        return Ok(false);
    }
    names_differ(alloc, m.exports.as_slice())
}
