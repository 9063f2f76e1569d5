//! An object made of what its sections tell.
ghost use Rattle.std.specs.Prelude.{◌≡◌, IfOk};
ghost use Rattle.object_file.specs.Objects.{linking_of, object_from};
ghost use Rattle.object_file.specs.Building.{columns_of, joined};

use crate::functions::functions_from;
use crate::names::with_names;
use crate::object::Object;
use crate::segments::segments_from;
use object_columns::{FuncTypes, Functions, Imports, Segments, Symbols};
use object_rules::{
    Counts, Linking, Parts, SectionSpan, SegmentInfo, Symbol, relocs_for, start_of,
};
use std::alloc::Global;
use wl_base::{InputId, OutOfMemory, Seq};

/// The lists of an object that are kept as columns.
#[derive(Drop)]
pub struct Columns {
    types: FuncTypes,
    imports: Imports,
    functions: Functions,
    segments: Segments,
    symbols: Symbols,
}

/// What is said of the segments. An object without a section `linking` says nothing.
fn infos_of(parts: &Parts) -> &[SegmentInfo]
    ensures { result.now ≡ (linking_of parts.now.linking).segments }
{
    match &parts.linking {
        Some(linking) => linking.segments.as_slice(),
        None => &[],
    }
}

/// The symbols. An object without a section `linking` has none.
fn symbols_of(parts: &Parts) -> &[Symbol]
    ensures { result.now ≡ (linking_of parts.now.linking).symbols }
{
    match &parts.linking {
        Some(linking) => linking.symbols.as_slice(),
        None => &[],
    }
}

/// The defined functions.
fn functions_of(alloc: Global, all: &[SectionSpan], parts: &Parts) -> Result<Functions, OutOfMemory>
    ensures { IfOk result (λ functions. functions ≡ (columns_of all.now parts.now).functions) }
{
    let counts = Counts::of(all, parts);
    functions_from(
        alloc,
        parts.exports.as_slice(),
        counts.imported_functions,
        counts.functions,
        parts.functions.as_slice(),
        parts.bodies.as_slice(),
    )
}

/// The data segments.
fn segments_of(alloc: Global, all: &[SectionSpan], parts: &Parts) -> Result<Segments, OutOfMemory>
    ensures { IfOk result (λ segments. segments ≡ (columns_of all.now parts.now).segments) }
{
    let windows = relocs_for(11, all, parts.relocs.as_slice());
    let start = start_of(11, all);
    segments_from(
        alloc,
        start,
        windows,
        infos_of(parts),
        parts.segments.as_slice(),
    )
}

/// The lists that are kept as columns.
fn columns_of(alloc: Global, all: &[SectionSpan], parts: &Parts) -> Result<Columns, OutOfMemory>
    ensures { IfOk result (λ columns. columns ≡ columns_of all.now parts.now) }
{
    let imports = parts.imports.as_slice();
    Ok(Columns {
        types: FuncTypes::of(alloc, parts.types.as_slice())?,
        imports: Imports::of(alloc, imports)?,
        functions: functions_of(alloc, all, parts)?,
        segments: segments_of(alloc, all, parts)?,
        symbols: with_names(alloc, imports, symbols_of(parts))?,
    })
}

/// The metadata of the section `linking`.
fn linking_of(alloc: Global, linking: Option<Linking>) -> Linking
    ensures { result ≡ linking_of linking }
{
    match linking {
        Some(linking) => linking,
        None => Linking {
            segments: Seq::new(alloc),
            inits: Seq::new(alloc),
            groups: Seq::new(alloc),
            symbols: Seq::new(alloc),
        },
    }
}

/// The object of these columns, and of what else its sections tell.
fn joined(alloc: Global, input: InputId, columns: Columns, parts: Parts) -> Object
    ensures { result ≡ joined input columns parts }
{
    let Parts {
        globals,
        linking,
        ..
    } = parts;
    let linking = linking_of(alloc, linking);
    Object {
        input,
        types: columns.types,
        imports: columns.imports,
        functions: columns.functions,
        globals,
        segments: columns.segments,
        symbols: columns.symbols,
        inits: linking.inits,
        groups: linking.groups,
    }
}

/// The object, as an input of this number, of its sections and their parts.
#[tactic(auto, unfolding(crate::specs::Objects::object_from))]
pub fn object_from(
    alloc: Global,
    input: InputId,
    all: &[SectionSpan],
    parts: Parts,
) -> Result<Object, OutOfMemory>
    ensures { IfOk result (λ object. object ≡ object_from input all.now parts) }
{
    let columns = columns_of(alloc, all, &parts)?;
    Ok(joined(alloc, input, columns, parts))
}
