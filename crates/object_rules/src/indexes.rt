//! Indexes of imports, functions, exports, element and data segments.
ghost use Rattle.std.specs.Prelude.{◌≡◌, nat_lt};
ghost use Rattle.std.specs.List.{list_all};
ghost use Rattle.object_rules.specs.Indexes.{count_is, are_counted, import_in_range, export_in_range, table_in_range, element_in_range, memory_in_range, segment_in_range, are_in_range};

use crate::spaces::Counts;
use object_parts::{DataPart, Element, Export, Import, ImportKind, Parts};

fn count_is(count: Option<u32>, segments: usize) -> bool
    ensures { result ≡ count_is count segments }
{
    match count {
        None => true,
        Some(count) => count as usize == segments,
    }
}

/// Whether what is counted twice is counted alike (Core 5.5.15 and 5.5.16).
pub fn are_counted(parts: &Parts) -> bool
    ensures { result ≡ are_counted parts.now }
{
    parts.functions.len() == parts.bodies.len() && count_is(parts.data_count, parts.segments.len())
}

fn import_in_range(counts: &Counts, kind: &ImportKind) -> bool
    ensures { result ≡ import_in_range counts.now kind.now }
{
    match kind {
        ImportKind::Function(index) => (*index as usize) < counts.types,
        ImportKind::Table(_) | ImportKind::Memory(_) | ImportKind::GlobalVar(_) => true,
    }
}

fn imports_in_range(counts: &Counts, imports: &[Import]) -> bool
    ensures { result ≡ list_all (λ i. import_in_range counts.now i.kind) imports.now }
{
    imports
        .iter()
        .all(|import| import_in_range(counts, &import.kind))
}

fn are_below(indexes: &[u32], count: usize) -> bool
    ensures { result ≡ list_all (λ index. nat_lt index count) indexes.now }
{
    indexes.iter().all(|index| (*index as usize) < count)
}

fn export_in_range(counts: &Counts, export: &Export) -> bool
    ensures { result ≡ export_in_range counts.now export.now }
{
    let index = export.index as usize;
    match export.kind {
        0 => index < counts.functions,
        1 => index < counts.tables,
        2 => index == 0,
        _ => index < counts.globals,
    }
}

fn exports_in_range(counts: &Counts, exports: &[Export]) -> bool
    ensures { result ≡ list_all (export_in_range counts.now) exports.now }
{
    exports.iter().all(|export| export_in_range(counts, export))
}

fn table_in_range(counts: &Counts, table: Option<u32>) -> bool
    ensures { result ≡ table_in_range counts.now table }
{
    match table {
        None => true,
        Some(table) => (table as usize) < counts.tables,
    }
}

fn element_in_range(counts: &Counts, element: &Element) -> bool
    ensures { result ≡ element_in_range counts.now element.now }
{
    table_in_range(counts, element.table)
        && are_below(element.functions.as_slice(), counts.functions)
}

fn elements_in_range(counts: &Counts, elements: &[Element]) -> bool
    ensures { result ≡ list_all (element_in_range counts.now) elements.now }
{
    elements
        .iter()
        .all(|element| element_in_range(counts, element))
}

fn memory_in_range(memory: Option<u32>) -> bool
    ensures { result ≡ memory_in_range memory }
{
    match memory {
        None => true,
        Some(memory) => memory == 0,
    }
}

fn segments_in_range(segments: &[DataPart]) -> bool
    ensures { result ≡ list_all segment_in_range segments.now }
{
    segments
        .iter()
        .all(|segment| memory_in_range(segment.memory))
}

/// Whether each index of an import, a function, an export, an element or data segment is in range.
pub fn are_in_range(counts: &Counts, parts: &Parts) -> bool
    ensures { result ≡ are_in_range counts.now parts.now }
{
    imports_in_range(counts, parts.imports.as_slice())
        && are_below(parts.functions.as_slice(), counts.types)
        && exports_in_range(counts, parts.exports.as_slice())
        && elements_in_range(counts, parts.elements.as_slice())
        && segments_in_range(parts.segments.as_slice())
}
