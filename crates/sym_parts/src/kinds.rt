//! The types of functions.
ghost use Rattle.std.specs.Prelude.{◌≡◌, length, slice_get, slice_index_or, Some, None, IfOk};
ghost use Rattle.link_program.specs.object_columns.Seen.{func_type_seen};
ghost use Rattle.link_program.specs.name_entries.Fits.{FitsObjects};
ghost use Rattle.link_keys.specs.Types.{type_at, kept_type, content_type_at, first_type, variant_number, stub_type};
ghost use Rattle.sym_parts.specs.Code.{part_kind, stub_types, kind_seen};

use crate::clones::{empty_type, type_of};
use link_keys::At;
use link_program::{
    Content, Entries, FuncTypeRef, FunctionKey, ImportType, Resolution, Tables, TypeRef,
    chunk_number, part_at,
};
use mark_bits::{Chunk, kinds as chunk_kinds};
use std::alloc::Global;
use wasm_types::FuncType;
use wl_base::{OutOfMemory, Seq};

/// The type of a number.
pub(crate) fn type_at(
    alloc: Global,
    types: &[FuncType],
    number: u32,
) -> Result<FuncType, OutOfMemory>
    ensures { IfOk result (λ t. t ≡ type_at types.now number) }
{
    match types.get(number as usize) {
        Some(t) => type_of(alloc, t),
        None => Ok(empty_type(alloc)),
    }
}

/// The type that is lent.
fn lent_type(alloc: Global, t: FuncTypeRef<'_>) -> Result<FuncType, OutOfMemory>
    ensures { IfOk result (λ copy. copy ≡ func_type_seen t.entry) }
{
    let params = Seq::from_slice(alloc, t.params)?;
    let results = Seq::from_slice(alloc, t.results)?;
    Ok(FuncType { params, results })
}

/// The type of an imported function.
fn import_kind(alloc: Global, resolution: &Resolution, number: u32) -> Result<FuncType, OutOfMemory>
    ensures { IfOk result (λ t. t ≡ kept_type (slice_get resolution.now.imports number)) }
{
    if number >= resolution.imports() {
        return Ok(empty_type(alloc));
    }
    match resolution.import_type(number) {
        ImportType::Function(t) => type_of(alloc, t),
        ImportType::GlobalVar(_, _) | ImportType::Untyped => Ok(empty_type(alloc)),
    }
}

/// The type of a part.
fn content_kind(
    alloc: Global,
    types: &[FuncType],
    content: Content,
) -> Result<FuncType, OutOfMemory>
    ensures { IfOk result (λ t. t ≡ content_type_at types.now content) }
{
    match content {
        Content::Function(number) => type_at(alloc, types, number),
        Content::Segment { align: _, flags: _ }
        | Content::Global { kind: _, value: _ }
        | Content::Made => Ok(empty_type(alloc)),
    }
}

/// The type of the part of a number.
fn part_kind(alloc: Global, tables: &Tables, number: Option<u32>) -> Result<FuncType, OutOfMemory>
    ensures { IfOk result (λ t. t ≡ part_kind tables.now number) }
{
    match number {
        Some(number) => content_kind(
            alloc,
            tables.types.as_slice(),
            part_at(tables, number).content,
        ),
        None => Ok(empty_type(alloc)),
    }
}

/// The type of a symbol.
fn symbol_kind(alloc: Global, entries: Entries<'_>, at: At) -> Result<FuncType, OutOfMemory>
    requires { FitsObjects entries }
    ensures { IfOk result (λ t. t ≡ first_type entries.entry.objects.now (Some at)) }
{
    match entries.type_of(at.object, at.place) {
        Some(TypeRef::Function(t)) => lent_type(alloc, t),
        Some(TypeRef::GlobalVar(_)) | Some(TypeRef::Untyped) | None => Ok(empty_type(alloc)),
    }
}

/// The least entry of a name.
#[tactic(auto, using(link_program::proofs::ReadAt::read))]
fn least_at(firsts: &[Option<At>], name: u32) -> Option<At>
    ensures { result ≡ slice_index_or firsts.now name None }
{
    match firsts.get(name as usize) {
        Some(at) => *at,
        None => None,
    }
}

/// The type of the least entry of a name.
fn first_kind(alloc: Global, entries: Entries<'_>, at: Option<At>) -> Result<FuncType, OutOfMemory>
    requires { FitsObjects entries }
    ensures { IfOk result (λ t. t ≡ first_type entries.entry.objects.now at) }
{
    match at {
        Some(at) => symbol_kind(alloc, entries, at),
        None => Ok(empty_type(alloc)),
    }
}

/// Which of the variants the name of this number is of, as the number of its type; the variants have the last of so many names.
fn variant_number(names: usize, variants: &[u32], number: u32) -> Option<u32>
    ensures { result ≡ variant_number names variants.now number }
{
    let place = number as usize + variants.len();
    if place < names {
        return None;
    }
    variants.get(place - names).copied()
}

/// The type of the stub of a name.
fn stub_kind(
    alloc: Global,
    tables: &Tables,
    entries: Entries<'_>,
    firsts: &[Option<At>],
    name: u32,
) -> Result<FuncType, OutOfMemory>
    requires { FitsObjects entries }
    ensures { IfOk result (λ t. t ≡ stub_type (stub_types tables.now entries.entry.objects.now firsts.now) (length firsts.now) name) }
{
    match variant_number(firsts.len(), tables.variants.as_slice(), name) {
        Some(number) => type_at(alloc, tables.types.as_slice(), number),
        None => first_kind(alloc, entries, least_at(firsts, name)),
    }
}

/// The type of a function.
pub(crate) fn kind_of(
    alloc: Global,
    resolution: &Resolution,
    tables: &Tables,
    entries: Entries<'_>,
    firsts: &[Option<At>],
    key: FunctionKey,
) -> Result<FuncType, OutOfMemory>
    requires { FitsObjects entries }
    ensures { IfOk result (λ t. t ≡ kind_seen resolution.now.imports tables.now entries.entry.objects.now firsts.now key) }
{
    match key {
        FunctionKey::Import(number) => import_kind(alloc, resolution, number),
        FunctionKey::Own { input: 0, index: _ } => Ok(empty_type(alloc)),
        FunctionKey::Own { input, index } => {
            let chunk = Chunk {
                input,
                kind: chunk_kinds::FUNCTION,
                index,
            };
            part_kind(alloc, tables, chunk_number(&tables.chunks, chunk))
        }
        FunctionKey::Stub(name) => stub_kind(alloc, tables, entries, firsts, name),
    }
}
