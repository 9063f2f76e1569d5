//! Which symbols of an object its kept parts name, as flags by their places.
ghost use Rattle.std.specs.Prelude.{◌≡◌, [], map, fold, drop, slice_index_or, if◌then◌else◌, false, IfOk};
ghost use Rattle.link_program.specs.object_columns.Seen.{function_seen, segment_seen};
ghost use Rattle.partial_open.specs.Named.{symbol_named, function_symbols, segment_symbols, kept_lists, marked, flags_of};
ghost use Rattle.partial_open.specs.Steps.{marked_by, by_reference, by_window, by_function, by_segment};

use link_program::{FunctionRef, Object, ObjectParts, SegmentRef};
use object_file::{Operand, Reference, Reloc};
use std::alloc::Global;
use wl_base::OutOfMemory;

/// Flags a symbol, where there is one.
fn mark(flags: &mut [bool], symbol: Option<u32>)
    ensures { flags.new ≡ marked_by flags.old symbol }
{
    let Some(symbol) = symbol else {
        return;
    };
    let symbol = symbol as usize;
    if symbol < flags.len() {
        flags[symbol] = true;
    }
}

/// The symbol that an operand names.
fn symbol_named(operand: Operand) -> Option<u32>
    ensures { result ≡ symbol_named operand }
{
    match operand {
        Operand::Symbol {
            kind: _,
            place: _,
            symbol,
            addend: _,
        } => Some(symbol),
        Operand::Number => None,
        Operand::TypeRef { place: _, index: _ } => None,
        Operand::TableZero => None,
    }
}

/// Flags the symbols that references name.
fn mark_references(flags: &mut [bool], references: &[Reference])
    ensures { flags.new ≡ fold by_reference flags.old references.now }
{
    for reference in references {
        mark(flags, symbol_named(reference.operand()));
    }
}

/// Flags the symbols that a function names.
#[tactic(auto, using(crate::proofs::Marked::references_are))]
fn mark_function(flags: &mut [bool], function: FunctionRef<'_>)
    ensures { flags.new ≡ by_function flags.old (function_seen function.entry) }
{
    mark_references(flags, function.operands.references);
}

/// Flags the symbols that a data segment names.
fn mark_windows(flags: &mut [bool], windows: &[Reloc])
    ensures { flags.new ≡ fold by_window flags.old windows.now }
{
    for window in windows {
        mark(flags, Some(window.index));
    }
}

#[tactic(auto, using(crate::proofs::Marked::windows_are))]
fn mark_segment(flags: &mut [bool], segment: SegmentRef<'_>)
    ensures { flags.new ≡ by_segment flags.old (segment_seen segment.entry) }
{
    mark_windows(flags, segment.windows);
}

/// Whether the part of an index is dropped.
fn is_dropped(dropped: &[bool], index: usize) -> bool
    ensures { result ≡ slice_index_or dropped.now index false }
{
    match dropped.get(index) {
        Some(flag) => *flag,
        None => false,
    }
}

/// Flags the symbols that the function of an index names, unless it is dropped.
#[tactic(auto, using(crate::proofs::Marked::listed, crate::proofs::Marked::none_listed))]
fn mark_function_at(flags: &mut [bool], from: &Object, dropped: &[bool], index: usize)
    ensures { flags.new ≡ fold marked flags.old (if slice_index_or dropped.now index false then [] else slice_index_or (map function_symbols from.now.functions) index []) }
{
    if is_dropped(dropped, index) {
        return;
    }
    if let Some(function) = from.functions.get(index) {
        mark_function(flags, function);
    }
}

/// The same for a segment.
#[tactic(auto, using(crate::proofs::Marked::listed, crate::proofs::Marked::none_listed))]
fn mark_segment_at(flags: &mut [bool], from: &Object, dropped: &[bool], index: usize)
    ensures { flags.new ≡ fold marked flags.old (if slice_index_or dropped.now index false then [] else slice_index_or (map segment_symbols from.now.segments) index []) }
{
    if is_dropped(dropped, index) {
        return;
    }
    if let Some(segment) = from.segments.get(index) {
        mark_segment(flags, segment);
    }
}

/// Flags the symbols that the kept functions of an object name.
#[tactic(auto, using(crate::proofs::Marked::list_more, crate::proofs::Marked::lists_end))]
fn mark_functions(flags: &mut [bool], from: &Object, dropped: &[bool])
    ensures { flags.new ≡ fold marked flags.old (kept_lists dropped.now 0 (map function_symbols from.now.functions)) }
{
    for index in 0..from.functions.len() {
        mark_function_at(flags, from, dropped, index);
    }
}

/// The same for its kept segments.
#[tactic(auto, using(crate::proofs::Marked::list_more, crate::proofs::Marked::lists_end))]
fn mark_segments(flags: &mut [bool], from: &Object, dropped: &[bool])
    ensures { flags.new ≡ fold marked flags.old (kept_lists dropped.now 0 (map segment_symbols from.now.segments)) }
{
    for index in 0..from.segments.len() {
        mark_segment_at(flags, from, dropped, index);
    }
}

/// Those behind the first ones.
fn behind(flags: &[bool], count: usize) -> &[bool]
    ensures { result.now ≡ drop count flags.now }
{
    &flags[flags.len().min(count)..]
}

/// Of each symbol of an object whether its kept parts name it.
pub(crate) fn flags_of(
    alloc: Global,
    from: &Object,
    parts: &ObjectParts,
) -> Result<Vec<bool>, OutOfMemory>
    ensures { IfOk result (λ flags. flags.items ≡ flags_of from.now parts.now) }
{
    let mut flags = vec![in alloc; false; from.symbols.len()]?;
    let imports = parts.imports.functions.len();
    let dropped = behind(parts.dropped_functions.as_slice(), imports);
    mark_functions(flags.as_mut_slice(), from, dropped);
    mark_segments(
        flags.as_mut_slice(),
        from,
        parts.dropped_segments.as_slice(),
    );
    Ok(flags)
}
