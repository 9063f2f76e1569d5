//! Segment infos, init functions and groups.
ghost use Rattle.std.specs.Prelude.{◌≡◌, ◌++◌, nat_le, map, flat_map, slice_get, IfOk, OnOk};
ghost use Rattle.std.specs.List.{list_all, list_any};
ghost use Rattle.std.specs.Str.{bytes_eq};
ghost use Rattle.object_rules.specs.Differ.{all_differ};
ghost use Rattle.object_rules.specs.Spaces.{function_types};
ghost use Rattle.object_rules.specs.Metadata.{infos_stand, is_plain, is_plain_at, is_function_kind, is_init, inits_stand, member_stands, member_key, groups_stand};

use crate::differ::{FEW, numbers_differ};
use crate::spaces::{Counts, function_types};
use indexmap::IndexSet;
use object_parts::{
    FuncType, Group, InitFunc, Member, Parts, SegmentInfo, Symbol, SymbolKind, member_kinds,
};
use std::alloc::Global;
use wl_base::{OutOfMemory, Seq};

fn are_aligned(infos: &[SegmentInfo]) -> bool
    ensures { result ≡ list_all (λ i. nat_le i.align 31) infos.now }
{
    infos.iter().all(|info| info.align <= 31)
}

/// Whether the infos are of segments, and alignments are below 2^32 bytes.
pub fn infos_stand(counts: &Counts, infos: &[SegmentInfo]) -> bool
    ensures { result ≡ infos_stand counts.now infos.now }
{
    infos.len() <= counts.segments && are_aligned(infos)
}

/// Whether the type at this place takes nothing and gives nothing.
fn is_plain(types: &[FuncType], at: usize) -> bool
    ensures { result ≡ is_plain (slice_get types.now at) }
{
    match types.get(at) {
        None => false,
        Some(kind) => kind.params.is_empty() && kind.results.is_empty(),
    }
}

/// Whether the function at this place has such a type.
fn is_plain_at(types: &[FuncType], functions: &[u32], at: usize) -> bool
    ensures { result ≡ is_plain_at types.now (slice_get functions.now at) }
{
    match functions.get(at) {
        None => false,
        Some(index) => is_plain(types, *index as usize),
    }
}

/// Whether the symbol at this place is that of an init function.
fn is_init(types: &[FuncType], functions: &[u32], symbols: &[Symbol], at: usize) -> bool
    ensures { result ≡ is_init types.now functions.now (slice_get symbols.now at) }
{
    match symbols.get(at) {
        None => false,
        Some(symbol) => {
            matches!(symbol.kind, SymbolKind::Function)
                && is_plain_at(types, functions, symbol.index as usize)
        }
    }
}

fn all_init(types: &[FuncType], functions: &[u32], symbols: &[Symbol], inits: &[InitFunc]) -> bool
    ensures { result ≡ list_all (λ i. is_init types.now functions.now (slice_get symbols.now i.symbol)) inits.now }
{
    inits.iter().all(|init| is_init(types, functions, symbols, init.symbol as usize))
}

/// Whether init functions take and give nothing.
pub fn inits_stand(
    alloc: Global,
    parts: &Parts,
    symbols: &[Symbol],
    inits: &[InitFunc],
) -> Result<bool, OutOfMemory>
    ensures { IfOk result (λ stand. stand ≡ inits_stand parts.now symbols.now inits.now) }
{
    let functions = function_types(alloc, parts)?;
    Ok(all_init(parts.types.as_slice(), functions.as_slice(), symbols, inits))
}

fn member_stands(counts: &Counts, member: &Member) -> bool
    ensures { result ≡ member_stands counts.now member.now }
{
    let index = member.index as usize;
    match member.kind {
        member_kinds::DATA => index < counts.segments,
        member_kinds::FUNCTION => counts.imported_functions <= index && index < counts.functions,
        _ => index < counts.sections,
    }
}

fn members_stand(counts: &Counts, members: &[Member]) -> bool
    ensures { result ≡ list_all (member_stands counts.now) members.now }
{
    members.iter().all(|member| member_stands(counts, member))
}

fn all_members_stand(counts: &Counts, groups: &[Group]) -> bool
    ensures { result ≡ list_all (λ g. list_all (member_stands counts.now) g.members) groups.now }
{
    groups
        .iter()
        .all(|group| members_stand(counts, group.members.as_slice()))
}

/// A member as one number.
fn member_key(member: &Member) -> u64
    ensures { result ≡ member_key member.now }
{
    u64::from(member.kind) * (1 << 32) + u64::from(member.index)
}

fn push_keys(keys: &mut Seq<u64>, members: &[Member]) -> Result<(), OutOfMemory>
    ensures { OnOk result (keys.new ≡ keys.old ++ map member_key members.now) }
{
    for member in members {
        keys.push(member_key(member))?;
    }
    Ok(())
}

fn member_keys(alloc: Global, groups: &[Group]) -> Result<Seq<u64>, OutOfMemory>
    ensures { IfOk result (λ keys. keys ≡ flat_map (λ g. map member_key g.members) groups.now) }
{
    let mut keys = Seq::new(alloc);
    for group in groups {
        push_keys(&mut keys, group.members.as_slice())?;
    }
    Ok(keys)
}

/// Whether one of the groups has this name.
fn is_named(groups: &[Group], name: &[u8]) -> bool
    ensures { result ≡ list_any (bytes_eq name.now) (map (λ g. g.name) groups.now) }
{
    for group in groups {
        if name == group.name.as_slice() {
            return true;
        }
    }
    false
}

/// Whether no two of a few groups have one name.
fn pairs_differ(groups: &[Group]) -> bool
    ensures { result ≡ all_differ bytes_eq (map (λ g. g.name) groups.now) }
{
    let mut left = groups;
    while let [group, behind @ ..] = left {
        if is_named(behind, group.name.as_slice()) {
            return false;
        }
        left = behind;
    }
    true
}

fn names_differ(alloc: Global, groups: &[Group]) -> Result<bool, OutOfMemory>
    ensures { IfOk result (λ differ. differ ≡ all_differ bytes_eq (map (λ g. g.name) groups.now)) }
{
    if groups.len() <= FEW {
        return Ok(pairs_differ(groups));
    }
    let mut seen = IndexSet::new(alloc);
    for group in groups {
        if !seen.insert(group.name.as_slice())? {
            return Ok(false);
        }
    }
    Ok(true)
}

/// Whether groups have different names, and members that are there, none in two places.
pub fn groups_stand(alloc: Global, counts: &Counts, groups: &[Group]) -> Result<bool, OutOfMemory>
    ensures { IfOk result (λ stand. stand ≡ groups_stand counts.now groups.now) }
{
    let keys = member_keys(alloc, groups)?;
    Ok(
        names_differ(alloc, groups)?
            && all_members_stand(counts, groups)
            && numbers_differ(alloc, keys.as_slice())?,
    )
}
